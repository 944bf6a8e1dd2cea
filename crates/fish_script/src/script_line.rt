//! What one line of a script says, as far as it needs no other line. A definition is not read yet.

ghost use Rattle.std.specs.Prelude.{◌≡◌, IfOk, option_map};
ghost use Rattle.fish_script.specs.ScriptLine.{by_of, csv_of, deregister_of, ingest_of, json_of, limit_of, look_of};
ghost use Rattle.fish_script.specs.ScriptLine.{mark, number_of, question_of, range_of, register_of, script_line_of};
ghost use Rattle.fish_script.specs.ScriptLine.{statement_line_of, way_of};

use crate::name::{is_name, name_text, read_file};
use crate::script::{By, MAX_NUMBER};
use crate::word::{first_word, is_end, unblank};
use fish_value::{Bytes, Form, Text, Value, read_int, read_value};
use std::alloc::{AllocError, Global};

/// What a line says.
#[derive(Drop)]
pub enum ScriptLine {
    /// A block of several lanes begins.
    Lanes,
    /// A lane begins.
    Lane,
    /// The block ends.
    End,
    /// A statement.
    Statement { statement_line: StatementLine },
}

/// A statement whose definition is not read.
#[derive(Drop)]
pub enum StatementLine {
    Register {
        name: Text,
        /// The text of the definition, as it stands.
        source: Bytes,
    },
    Deregister {
        name: Text,
    },
    Ingest {
        form: Form,
        header: bool,
        file: Text,
    },
    Scan {
        look: Look,
    },
    Explain {
        look: Look,
    },
    Checkpoint,
}

/// Which records are asked for.
#[derive(Drop)]
pub struct Look {
    pub name: Text,
    pub value: Value,
    pub range: Range,
}

/// Of which numbers, and whether by the index.
#[derive(Clone, Copy)]
pub struct Range {
    pub from: Option<u32>,
    pub to: Option<u32>,
    pub by: By,
}

/// What a line says, or none where it is no statement and none of `lanes`, `lane` and `end`.
#[tactic(auto, unfolding(crate::specs::ScriptLine::script_line_of))]
pub(crate) fn read_script_line(alloc: Global, b: &[u8]) -> Result<Option<ScriptLine>, AllocError>
    ensures { IfOk result (λ said. said ≡ script_line_of b.now) }
{
    let (word, behind) = first_word(b);
    if is_end(behind) {
        if let Some(said) = mark(word) {
            return Ok(Some(said));
        }
    }
    let statement_line = read_statement_line(alloc, word, behind)?;
    Ok(statement_line.map(|statement_line| ScriptLine::Statement { statement_line }))
}

/// `lanes`, `lane` or `end`
#[tactic(auto, unfolding(crate::specs::ScriptLine::mark))]
fn mark(word: &[u8]) -> Option<ScriptLine>
    ensures { result ≡ mark word.now }
{
    if word == b"lanes".as_slice() {
        return Some(ScriptLine::Lanes);
    }
    if word == b"lane".as_slice() {
        return Some(ScriptLine::Lane);
    }
    if word == b"end".as_slice() {
        return Some(ScriptLine::End);
    }
    None
}

/// The statement of a line, by its first word and what follows it.
#[tactic(auto, unfolding(crate::specs::ScriptLine::statement_line_of))]
fn read_statement_line(
    alloc: Global,
    word: &[u8],
    behind: &[u8],
) -> Result<Option<StatementLine>, AllocError>
    ensures { IfOk result (λ said. said ≡ statement_line_of word.now behind.now) }
{
    if word == b"register".as_slice() {
        return read_register(alloc, behind);
    }
    if word == b"deregister".as_slice() {
        return read_deregister(alloc, behind);
    }
    if word == b"ingest".as_slice() {
        return read_ingest(alloc, behind);
    }
    read_question(alloc, word, behind)
}

/// A statement that changes no definition and stores no record.
#[tactic(auto, unfolding(crate::specs::ScriptLine::question_of))]
fn read_question(
    alloc: Global,
    word: &[u8],
    behind: &[u8],
) -> Result<Option<StatementLine>, AllocError>
    ensures { IfOk result (λ said. said ≡ question_of word.now behind.now) }
{
    if word == b"checkpoint".as_slice() && is_end(behind) {
        return Ok(Some(StatementLine::Checkpoint));
    }
    let scans = word == b"scan".as_slice();
    if !scans && word != b"explain".as_slice() {
        return Ok(None);
    }
    let look = read_look(alloc, behind)?;
    Ok(look.map(|look| {
        if scans {
            StatementLine::Scan { look }
        } else {
            StatementLine::Explain { look }
        }
    }))
}

/// `NAME as DEF`
#[tactic(auto, unfolding(crate::specs::ScriptLine::register_of))]
fn read_register(alloc: Global, b: &[u8]) -> Result<Option<StatementLine>, AllocError>
    ensures { IfOk result (λ said. said ≡ register_of b.now) }
{
    let (name, behind) = first_word(b);
    let (word, rest) = first_word(behind);
    if !is_name(name) || word != b"as".as_slice() {
        return Ok(None);
    }
    Ok(Some(StatementLine::Register {
        name: name_text(alloc, name)?,
        source: Bytes::copy_of(alloc, unblank(rest))?,
    }))
}

/// `NAME`
#[tactic(auto, unfolding(crate::specs::ScriptLine::deregister_of))]
fn read_deregister(alloc: Global, b: &[u8]) -> Result<Option<StatementLine>, AllocError>
    ensures { IfOk result (λ said. said ≡ deregister_of b.now) }
{
    let (name, behind) = first_word(b);
    if !is_name(name) || !is_end(behind) {
        return Ok(None);
    }
    Ok(Some(StatementLine::Deregister {
        name: name_text(alloc, name)?,
    }))
}

/// `json FILE` or `csv FILE [header]`
#[tactic(auto, unfolding(crate::specs::ScriptLine::ingest_of))]
fn read_ingest(alloc: Global, b: &[u8]) -> Result<Option<StatementLine>, AllocError>
    ensures { IfOk result (λ said. said ≡ ingest_of b.now) }
{
    let (word, behind) = first_word(b);
    if word == b"json".as_slice() {
        return read_json_file(alloc, behind);
    }
    if word == b"csv".as_slice() {
        return read_csv_file(alloc, behind);
    }
    Ok(None)
}

/// `FILE`
#[tactic(auto, unfolding(crate::specs::ScriptLine::json_of))]
fn read_json_file(alloc: Global, b: &[u8]) -> Result<Option<StatementLine>, AllocError>
    ensures { IfOk result (λ said. said ≡ json_of b.now) }
{
    let (word, behind) = first_word(b);
    if !is_end(behind) {
        return Ok(None);
    }
    let file = read_file(alloc, word)?;
    Ok(file.map(|file| StatementLine::Ingest {
        form: Form::Json,
        header: false,
        file,
    }))
}

/// `FILE [header]`
#[tactic(auto, unfolding(crate::specs::ScriptLine::csv_of))]
fn read_csv_file(alloc: Global, b: &[u8]) -> Result<Option<StatementLine>, AllocError>
    ensures { IfOk result (λ said. said ≡ csv_of b.now) }
{
    let (word, behind) = first_word(b);
    let (next, rest) = first_word(behind);
    let header = !is_end(behind);
    if header && (next != b"header".as_slice() || !is_end(rest)) {
        return Ok(None);
    }
    let file = read_file(alloc, word)?;
    Ok(file.map(|file| StatementLine::Ingest {
        form: Form::Csv,
        header,
        file,
    }))
}

/// `NAME = VALUE`, and of which numbers.
#[tactic(auto, unfolding(crate::specs::ScriptLine::look_of))]
fn read_look(alloc: Global, b: &[u8]) -> Result<Option<Look>, AllocError>
    ensures { IfOk result (λ look. look ≡ look_of b.now) }
{
    let (name, behind) = first_word(b);
    let (sign, right) = first_word(behind);
    if !is_name(name) || sign != b"=".as_slice() {
        return Ok(None);
    }
    let (word, rest) = first_word(right);
    let Some(range) = read_range(rest) else {
        return Ok(None);
    };
    let name = name_text(alloc, name)?;
    match read_value(alloc, word) {
        Ok(value) => Ok(value.map(|value| Look { name, value, range })),
        Err(error) => {
            drop(name);
            Err(error)
        }
    }
}

/// `[from N] [to N] [by HOW]`
#[tactic(auto, unfolding(crate::specs::ScriptLine::range_of))]
fn read_range(b: &[u8]) -> Option<Range>
    ensures { result ≡ range_of b.now }
{
    let (from, behind) = read_limit(b, b"from")?;
    let (to, rest) = read_limit(behind, b"to")?;
    let by = read_by(rest)?;
    Some(Range { from, to, by })
}

/// `[KEY N]`: the number, if it is there, and what follows.
#[tactic(auto, unfolding(crate::specs::ScriptLine::limit_of))]
fn read_limit<'b>(b: &'b [u8], key: &[u8]) -> Option<(Option<u32>, &'b [u8])>
    ensures { option_map (λ p. (p.0, p.1.now)) result ≡ limit_of key.now b.now }
{
    let (word, behind) = first_word(b);
    if word != key {
        return Some((None, b));
    }
    let (digits, rest) = first_word(behind);
    let number = read_number(digits)?;
    Some((Some(number), rest))
}

/// `0` or `[1-9][0-9]*`, below 268435456.
#[tactic(auto, unfolding(crate::specs::ScriptLine::number_of))]
fn read_number(word: &[u8]) -> Option<u32>
    ensures { result ≡ number_of word.now }
{
    let number = read_int(word)?;
    if number < 0 || number >= i64::from(MAX_NUMBER) {
        return None;
    }
    Some(number as u32)
}

/// `[by index | by full | by auto]`, and then nothing more.
#[tactic(auto, unfolding(crate::specs::ScriptLine::by_of))]
fn read_by(b: &[u8]) -> Option<By>
    ensures { result ≡ by_of b.now }
{
    if is_end(b) {
        return Some(By::Auto);
    }
    let (word, behind) = first_word(b);
    let (way, rest) = first_word(behind);
    if word != b"by".as_slice() || !is_end(rest) {
        return None;
    }
    read_way(way)
}

/// `index`, `full` or `auto`
#[tactic(auto, unfolding(crate::specs::ScriptLine::way_of))]
fn read_way(word: &[u8]) -> Option<By>
    ensures { result ≡ way_of word.now }
{
    if word == b"index".as_slice() {
        return Some(By::Index);
    }
    if word == b"full".as_slice() {
        return Some(By::Full);
    }
    if word == b"auto".as_slice() {
        return Some(By::Auto);
    }
    None
}
