//! Texts of scripts, with the script or the refusal that was worked out by hand.

use crate::expecting::expect_all;
use fish_lang::{Def, print_def};
use fish_script::{Block, By, Script, Statement, Statements, parse_script};
use fish_value::{Bytes, Form, Text, Value, print_value};
use std::alloc::{AllocError, Global};
use std::test::Fail;

/// Texts without lanes. A statement is told in its own words, with the definition's canonical text and all
/// that it leaves to be understood.
const STATEMENTS: &[(&str, &str)] = &[
    ("", ""),
    ("\n\n", ""),
    (" \t\n#\n  # checkpoint\n\t#", ""),
    ("checkpoint", "checkpoint;"),
    (" \tcheckpoint\t \n", "checkpoint;"),
    ("checkpoint\r\ncheckpoint\n", "checkpoint; checkpoint;"),
    // a CR is dropped before an LF alone, and once
    ("checkpoint\r", "unexpected line 1"),
    ("checkpoint\r\r\n", "unexpected line 1"),
    ("\r\n", ""),
    ("checkpoint # now", "unexpected line 1"),
    ("Checkpoint", "unexpected line 1"),
    // definitions: what follows the blanks after `as`
    ("register t as take type", "register t take type;"),
    (
        "register\tt  as \t take  \"type\"  when not ( n<3 or n >5)",
        "register t take type when not (n < 3 or n > 5);",
    ),
    ("register take as take n", "register take take n;"),
    ("register t as", "definition line 1 unexpected at 0"),
    ("register t as  ", "definition line 1 unexpected at 0"),
    ("register t as take ", "definition line 1 unexpected at 5"),
    (
        "\nregister t as take type whem x exists",
        "definition line 2 unexpected at 10",
    ),
    (
        "register t as bucket n by 0",
        "definition line 1 zero width at 12",
    ),
    ("register t asx take n", "unexpected line 1"),
    ("register t", "unexpected line 1"),
    ("register as take n", "unexpected line 1"),
    // names
    ("deregister _9", "deregister _9;"),
    ("deregister 9_", "unexpected line 1"),
    ("deregister a-b", "unexpected line 1"),
    ("deregister $1", "unexpected line 1"),
    ("deregister", "unexpected line 1"),
    ("deregister a b", "unexpected line 1"),
    (
        "deregister abcdefghijklmnopqrstuvwxyz_01234",
        "deregister abcdefghijklmnopqrstuvwxyz_01234;",
    ),
    (
        "deregister abcdefghijklmnopqrstuvwxyz_012345",
        "unexpected line 1",
    ),
    // files
    ("ingest json a", "ingest json a;"),
    ("ingest csv a", "ingest csv a;"),
    ("ingest csv a header", "ingest csv a header;"),
    ("ingest json ~/a$b'c\\d", "ingest json ~/a$b'c\\d;"),
    ("ingest json \"a b\"", "ingest json a b;"),
    ("ingest csv \"a\\\"#b\" header", "ingest csv a\"#b header;"),
    ("ingest json \"a\" header", "unexpected line 1"),
    ("ingest csv a headers", "unexpected line 1"),
    ("ingest csv a header header", "unexpected line 1"),
    ("ingest json \"\"", "unexpected line 1"),
    ("ingest json \"a\"b", "unexpected line 1"),
    ("ingest json \"a", "unexpected line 1"),
    ("ingest json a\"b", "unexpected line 1"),
    ("ingest json a#b", "unexpected line 1"),
    ("ingest json é", "unexpected line 1"),
    ("ingest json \"é\"", "ingest json é;"),
    ("ingest json", "unexpected line 1"),
    ("ingest xml a", "unexpected line 1"),
    ("ingest a", "unexpected line 1"),
    // what is asked for
    (
        "scan t = \"Push\"",
        "scan t = \"Push\" from none to none by auto;",
    ),
    (
        "explain t = true",
        "explain t = true from none to none by auto;",
    ),
    (
        "scan t = -7 by auto",
        "scan t = -7 from none to none by auto;",
    ),
    (
        "scan t = \"a \\\" from 1\" from 0 to 268435455 by full",
        "scan t = \"a \\\" from 1\" from 0 to 268435455 by full;",
    ),
    (
        "explain t = 1 to 5",
        "explain t = 1 from none to 5 by auto;",
    ),
    (
        "explain t = 1 from 5 by index",
        "explain t = 1 from 5 to none by index;",
    ),
    ("scan t = 1 from 5 to 5", "scan t = 1 from 5 to 5 by auto;"),
    ("scan t = 1 to 5 from 5", "unexpected line 1"),
    ("scan t = 1 by full to 5", "unexpected line 1"),
    ("scan t = 1 from 268435456", "unexpected line 1"),
    ("scan t = 1 from 05", "unexpected line 1"),
    ("scan t = 1 from -0", "unexpected line 1"),
    ("scan t = 1 from -1", "unexpected line 1"),
    ("scan t = 1 from", "unexpected line 1"),
    ("scan t = 1 from 1 from 1", "unexpected line 1"),
    ("scan t = 1 by", "unexpected line 1"),
    ("scan t = 1 by row", "unexpected line 1"),
    ("scan t = 1 by full full", "unexpected line 1"),
    ("scan t=1", "unexpected line 1"),
    ("scan t = ", "unexpected line 1"),
    ("scan t = -0", "unexpected line 1"),
    ("scan t = 1.5", "unexpected line 1"),
    ("scan t = Push", "unexpected line 1"),
    ("scan t = \"a\"by full", "unexpected line 1"),
    ("scan = 1", "unexpected line 1"),
    // the first line decides
    ("register t as\nend", "definition line 1 unexpected at 0"),
    ("checkpoint\n\n#\nend\nlane", "unexpected line 4"),
];

/// Texts with lanes. A block is told in braces, with a bar after each lane.
const LANES: &[(&str, &str)] = &[
    ("lanes\nlane\nend", "{ | }"),
    (
        "lanes\n\nlane\ningest json a\n# b\nscan t = 1\nlane\nend\ncheckpoint",
        "{ ingest json a; scan t = 1 from none to none by auto; | | } checkpoint;",
    ),
    (
        "lanes\nlane\nregister t as take n\nderegister t\ncheckpoint\nlane\nexplain t = 1\nend\nlanes\nlane\nend\n",
        "{ register t take n; deregister t; checkpoint; | explain t = 1 from none to none by auto; | } { | }",
    ),
    // what can't stand there
    ("lane", "unexpected line 1"),
    ("end", "unexpected line 1"),
    ("lanes\nend", "unexpected line 2"),
    ("lanes\nlanes", "unexpected line 2"),
    ("lanes\nlane\nlanes", "unexpected line 3"),
    ("lanes\ncheckpoint", "unexpected line 2"),
    ("lanes\nlane\nend\nlane", "unexpected line 4"),
    ("lanes a", "unexpected line 1"),
    // the text ends within a block: the number of its lines plus one
    ("lanes", "unexpected line 2"),
    ("lanes\n", "unexpected line 2"),
    ("lanes\nlane\n\n#", "unexpected line 5"),
    ("lanes\nlane\n\n", "unexpected line 4"),
    // control in a lane after the first
    (
        "lanes\nlane\ningest json a\nlane\ncheckpoint\nend",
        "control in lane line 5",
    ),
    (
        "lanes\nlane\nlane\nderegister t\nend",
        "control in lane line 4",
    ),
    (
        "lanes\nlane\nlane\nregister t as take n\nend",
        "control in lane line 4",
    ),
    // on one line: what can't stand there, then the definition, then the lane
    ("lanes\nregister t as", "unexpected line 2"),
    (
        "lanes\nlane\nlane\nregister t as",
        "definition line 4 unexpected at 0",
    ),
    // a later block begins anew
    (
        "lanes\nlane\nlane\nend\nlanes\nlane\ncheckpoint\nend",
        "{ | | } { checkpoint; | }",
    ),
];

/// Scripts that are no texts: the first line decides, and on one line that it is no text.
const BYTES: &[(&[u8], &str)] = &[
    (b"checkpoint\n\xff", "not text line 2"),
    (b"# \xff\n \t#\xc3\ncheckpoint", "checkpoint;"),
    (b"checkpoint \xff", "not text line 1"),
    (b"register t as take \xff", "not text line 1"),
    (b"lane\n\xff", "unexpected line 1"),
    (b"lanes\nregister t as \xff", "not text line 2"),
];

/// What stands in front, a line, how often it stands there, what follows, and the number of blocks
/// and lanes, or the refusal.
const REPEATED: &[((&str, &str, usize, &str), &str)] = &[
    (("lanes\n", "lane\n", 16, "end"), "1 blocks 16 lanes"),
    (("lanes\n", "lane\n", 17, "end"), "too many lanes line 18"),
    (
        ("lanes\nlane\n", "ingest json a\n", 256, "end"),
        "1 blocks 1 lanes",
    ),
    (
        ("lanes\nlane\n", "ingest json a\n", 257, "end"),
        "too many feeds line 259",
    ),
    (("", "ingest json a\n", 257, ""), "257 blocks 257 lanes"),
    (
        ("lanes\n", "lane\ningest json a\n", 16, "end"),
        "1 blocks 16 lanes",
    ),
    (("", "#", 1_048_576, ""), "0 blocks 0 lanes"),
    (("", "#", 1_048_577, ""), "too long 1048577"),
    (("checkpoint\n", "\n", 1_048_565, ""), "1 blocks 1 lanes"),
    (("checkpoint\n", "\n", 1_048_566, ""), "too long 1048577"),
    (("lane\n", "\n", 1_048_576, ""), "too long 1048581"),
];

fn put_limit(
    alloc: Global,
    told: &mut String,
    word: &str,
    limit: Option<u32>,
) -> Result<(), AllocError> {
    let text = match limit {
        Some(number) => format!(in alloc; " {word} {number}")?,
        None => format!(in alloc; " {word} none")?,
    };
    told.push_str(text.as_str())
}

const fn way(by: By) -> &'static str {
    match by {
        By::Auto => " by auto",
        By::Index => " by index",
        By::Full => " by full",
    }
}

/// A name and a value.
fn put_asked(
    alloc: Global,
    told: &mut String,
    word: &str,
    name: &Text,
    value: &Value,
) -> Result<(), AllocError> {
    let printed = print_value(alloc, value)?;
    let text = format!(in alloc; "{word} {} = {}", name.as_str(), printed.as_str())?;
    told.push_str(text.as_str())
}

fn put_range(
    alloc: Global,
    told: &mut String,
    from: Option<u32>,
    to: Option<u32>,
    by: By,
) -> Result<(), AllocError> {
    put_limit(alloc, told, "from", from)?;
    put_limit(alloc, told, "to", to)?;
    told.push_str(way(by))
}

fn put_register(
    alloc: Global,
    told: &mut String,
    name: &Text,
    def: &Def,
) -> Result<(), AllocError> {
    let printed = print_def(alloc, def)?;
    let text = format!(in alloc; "register {} {}", name.as_str(), printed.as_str())?;
    told.push_str(text.as_str())
}

fn put_ingest(told: &mut String, form: &Form, header: bool, file: &Text) -> Result<(), AllocError> {
    told.push_str(match form {
        Form::Json => "ingest json ",
        Form::Csv => "ingest csv ",
    })?;
    told.push_str(file.as_str())?;
    told.push_str(if header { " header" } else { "" })
}

fn put_statement(
    alloc: Global,
    told: &mut String,
    statement: &Statement,
) -> Result<(), AllocError> {
    match statement {
        Statement::Register { name, def } => put_register(alloc, told, name, def)?,
        Statement::Deregister { name } => {
            told.push_str("deregister ")?;
            told.push_str(name.as_str())?;
        }
        Statement::Ingest { form, header, file } => put_ingest(told, form, *header, file)?,
        Statement::Scan {
            name,
            value,
            from,
            to,
            by,
        } => {
            put_asked(alloc, told, "scan", name, value)?;
            put_range(alloc, told, *from, *to, *by)?;
        }
        Statement::Explain {
            name,
            value,
            from,
            to,
            by,
        } => {
            put_asked(alloc, told, "explain", name, value)?;
            put_range(alloc, told, *from, *to, *by)?;
        }
        Statement::Checkpoint => told.push_str("checkpoint")?,
    }
    told.push_str("; ")
}

fn put_lane(alloc: Global, told: &mut String, lane: &Statements) -> Result<(), AllocError> {
    for statement in lane.as_slice() {
        put_statement(alloc, told, statement)?;
    }
    Ok(())
}

fn put_block(alloc: Global, told: &mut String, block: &Block) -> Result<(), AllocError> {
    told.push_str(if block.several { "{ " } else { "" })?;
    for lane in block.lanes.as_slice() {
        put_lane(alloc, told, lane)?;
        told.push_str(if block.several { "| " } else { "" })?;
    }
    told.push_str(if block.several { "} " } else { "" })
}

fn script_told(alloc: Global, script: &Script) -> Result<String, AllocError> {
    let mut told = String::new(alloc);
    for block in script.as_slice() {
        put_block(alloc, &mut told, block)?;
    }
    String::from_str(alloc, told.as_str().trim_end())
}

fn parsed(alloc: Global, bytes: &&[u8]) -> Result<String, AllocError> {
    match parse_script(alloc, *bytes) {
        Ok(script) => {
            let told = script_told(alloc, &script);
            drop(script);
            told
        }
        Err(refusal) => format!(in alloc; "{refusal}"),
    }
}

fn parsed_text(alloc: Global, text: &&str) -> Result<String, AllocError> {
    parsed(alloc, &text.as_bytes())
}

#[test]
fn statements(rt: HostRuntime) -> Result<(), Fail> {
    expect_all(&rt, rt.alloc(), STATEMENTS, parsed_text)?;
    Ok(())
}

#[test]
fn lanes(rt: HostRuntime) -> Result<(), Fail> {
    expect_all(&rt, rt.alloc(), LANES, parsed_text)?;
    Ok(())
}

#[test]
fn bytes(rt: HostRuntime) -> Result<(), Fail> {
    expect_all(&rt, rt.alloc(), BYTES, parsed)?;
    Ok(())
}

/// How many blocks and lanes there are.
fn sizes(alloc: Global, script: &Script) -> Result<String, AllocError> {
    let mut lanes: u64 = 0;
    for block in script.as_slice() {
        lanes = lanes.saturating_add(block.lanes.len() as u64);
    }
    format!(in alloc; "{} blocks {lanes} lanes", script.len())
}

fn repeated(alloc: Global, case: &(&str, &str, usize, &str)) -> Result<String, AllocError> {
    let (front, line, count, behind) = *case;
    let mut text = Bytes::copy_of(alloc, front.as_bytes())?;
    for _ in 0..count {
        text.append(line.as_bytes())?;
    }
    text.append(behind.as_bytes())?;
    match parse_script(alloc, text.as_bytes()) {
        Ok(script) => {
            let told = sizes(alloc, &script);
            drop(script);
            told
        }
        Err(refusal) => format!(in alloc; "{refusal}"),
    }
}

#[test]
fn limits(rt: HostRuntime) -> Result<(), Fail> {
    expect_all(&rt, rt.alloc(), REPEATED, repeated)?;
    Ok(())
}
