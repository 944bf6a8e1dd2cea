//! A script while its lines are read, one after the other. A line is taken whole, or the text is refused
//! for it.

ghost use Rattle.std.specs.Prelude.{◌≡◌, ◌↔◌, ◌<◌, ◌++◌, ◌∷◌, [], IfErr, IfOk, IsTrue, MatchOption, OnOk, true, false};
ghost use Rattle.fish_script.specs.within.Building.{IsInFront, IsInside, IsNoDefinition, IsPast, UnlessOutOfMemory};
ghost use Rattle.fish_script.specs.Limits.{most_lanes};
ghost use Rattle.fish_script.specs.Positions.{Fits};
ghost use Rattle.fish_script.specs.Script.{ReadsStatement, is_control, is_feed};
ghost use Rattle.fish_script.specs.declared.script_line.StatementLine.TheVariants as word;

use crate::refusal::ScriptRefusal;
use crate::script::{Block, LaneTexts, MAX_FEEDS, MAX_LANES, Script, Statement, Statements};
use crate::script_line::{Look, Range, ScriptLine, StatementLine, read_script_line};
use crate::word::is_skipped;
use fish_lang::{Def, LangRefusal, parse_def};
use fish_value::{Bytes, Text};
use std::alloc::{AllocError, Global};
use std::mem;

/// Where the next line stands.
#[derive(Clone, Copy)]
pub enum Position {
    /// In no block of several lanes.
    Outside,
    /// In one.
    Inside {
        /// How many lanes have begun.
        lanes: usize,
        /// How many files its statements store.
        feeds: usize,
    },
}

/// What the lines so far say.
#[derive(Drop)]
pub struct ScriptBuilder {
    alloc: Global,
    position: Position,
    blocks: Script,
    /// The lanes of the open block that have ended.
    lanes: LaneTexts,
    /// The lane that has begun.
    lane: Statements,
}

impl ScriptBuilder {
    ghost use Rattle.fish_script.specs.within.Building.{HasBuilt, Pushes, Takes, TakesScriptLine};
    ghost use Rattle.fish_script.specs.Refusals.{IsFault, IsLineFault};
    ghost use Rattle.fish_script.specs.declared.builder.Position.TheVariants.{Inside, Outside};
    ghost use Rattle.fish_script.specs.declared.script_line.ScriptLine.TheVariants as said;

    /// No line. Takes no memory.
    pub fn new(alloc: Global) -> ScriptBuilder
        ensures { HasBuilt [] result }
    {
        ScriptBuilder {
            alloc,
            position: Position::Outside,
            blocks: Script::new(alloc),
            lanes: LaneTexts::new(alloc),
            lane: Statements::new(alloc),
        }
    }

    /// Takes the line with a number.
    pub fn take_line(&mut self, number: u64, line: &[u8]) -> Result<(), ScriptRefusal>
        ensures taken { OnOk result (TakesScriptLine line.now self.old self.new) }
        ensures refused { IfErr result (UnlessOutOfMemory (IsLineFault self.old.position line.now number)) }
    {
        if is_skipped(line) {
            return Ok(());
        }
        if simdutf8::basic::from_utf8(line).is_err() {
            return Err(ScriptRefusal::NotText { line: number });
        }
        match read_script_line(self.alloc, line)? {
            Some(said) => self.take(number, said),
            None => Err(ScriptRefusal::Unexpected { line: number }),
        }
    }

    /// Takes what the line says.
    fn take(&mut self, number: u64, said: ScriptLine) -> Result<(), ScriptRefusal>
        ensures taken { OnOk result (Takes said self.old self.new) }
        ensures refused { IfErr result (UnlessOutOfMemory (IsFault self.old.position said number)) }
    {
        match said {
            ScriptLine::Lanes => self.open_block(number),
            ScriptLine::Lane => self.begin_lane(number),
            ScriptLine::End => self.end_block(number),
            ScriptLine::Statement { statement_line } => self.take_statement(number, statement_line),
        }
    }

    /// `lanes`
    fn open_block(&mut self, number: u64) -> Result<(), ScriptRefusal>
        ensures taken { OnOk result (Takes said.Lanes self.old self.new) }
        ensures refused { IfErr result (UnlessOutOfMemory (IsFault self.old.position said.Lanes number)) }
    {
        match self.position {
            Position::Outside => {
                self.position = Position::Inside { lanes: 0, feeds: 0 };
                Ok(())
            }
            Position::Inside { .. } => Err(ScriptRefusal::Unexpected { line: number }),
        }
    }

    /// `lane`
    fn begin_lane(&mut self, number: u64) -> Result<(), ScriptRefusal>
        ensures taken { OnOk result (Takes said.Lane self.old self.new) }
        ensures refused { IfErr result (UnlessOutOfMemory (IsFault self.old.position said.Lane number)) }
    {
        let Position::Inside { lanes, feeds } = self.position else {
            return Err(ScriptRefusal::Unexpected { line: number });
        };
        if lanes >= MAX_LANES {
            return Err(ScriptRefusal::TooManyLanes { line: number });
        }
        Ok(self.next_lane(lanes, feeds)?)
    }

    /// One lane more, of a block with so many.
    fn next_lane(&mut self, lanes: usize, feeds: usize) -> Result<(), AllocError>
        requires position { self.old.position ≡ Inside lanes feeds }
        requires room { lanes < most_lanes }
        ensures { OnOk result (Takes said.Lane self.old self.new) }
    {
        if lanes == 0 {
            self.position = Position::Inside { lanes: 1, feeds };
            return Ok(());
        }
        self.end_lane()?;
        self.position = Position::Inside {
            lanes: lanes + 1,
            feeds,
        };
        Ok(())
    }

    /// `end`
    fn end_block(&mut self, number: u64) -> Result<(), ScriptRefusal>
        ensures taken { OnOk result (Takes said.End self.old self.new) }
        ensures refused { IfErr result (UnlessOutOfMemory (IsFault self.old.position said.End number)) }
    {
        match self.position {
            Position::Inside { lanes, .. } if lanes > 0 => Ok(self.close_block()?),
            _ => Err(ScriptRefusal::Unexpected { line: number }),
        }
    }

    /// Puts the lane that has begun after those that have ended.
    fn end_lane(&mut self) -> Result<(), AllocError>
        ensures lanes { OnOk result (self.new.lanes ≡ self.old.lanes ++ self.old.lane ∷ []) }
        ensures lane { OnOk result (self.new.lane ≡ []) }
        ensures blocks { self.new.blocks ≡ self.old.blocks }
        ensures position { self.new.position ≡ self.old.position }
    {
        let lane = mem::replace(&mut self.lane, Statements::new(self.alloc));
        self.lanes.push(lane)
    }

    /// Puts the open block after the others.
    fn close_block(&mut self) -> Result<(), AllocError>
        ensures blocks { OnOk result (self.new.blocks
            ≡ self.old.blocks ++ record { several = true; lanes = self.old.lanes ++ self.old.lane ∷ [] } ∷ []) }
        ensures lanes { OnOk result (self.new.lanes ≡ []) }
        ensures lane { OnOk result (self.new.lane ≡ []) }
        ensures position { OnOk result (self.new.position ≡ Outside) }
    {
        self.end_lane()?;
        let lanes = mem::replace(&mut self.lanes, LaneTexts::new(self.alloc));
        self.position = Position::Outside;
        self.blocks.push(Block {
            several: true,
            lanes,
        })
    }

    /// A statement.
    fn take_statement(
        &mut self,
        number: u64,
        statement_line: StatementLine,
    ) -> Result<(), ScriptRefusal>
        ensures taken { OnOk result (Takes (said.Statement statement_line) self.old self.new) }
        ensures refused { IfErr result
            (UnlessOutOfMemory (IsFault self.old.position (said.Statement statement_line) number)) }
    {
        if is_in_front(self.position) {
            drop(statement_line);
            return Err(ScriptRefusal::Unexpected { line: number });
        }
        let statement = read_statement(self.alloc, number, statement_line)?;
        if let Some(refusal) = past_limit(self.position, &statement, number) {
            drop(statement);
            return Err(refusal);
        }
        Ok(self.push(statement)?)
    }

    /// Puts a statement after the others: as a block by itself, or in the lane that has begun.
    fn push(&mut self, statement: Statement) -> Result<(), AllocError>
        requires { Fits self.old.position statement }
        ensures { OnOk result (Pushes self.old.position statement self.old self.new) }
    {
        let Position::Inside { lanes, feeds } = self.position else {
            return self.push_alone(statement);
        };
        let feeds = if is_feed(&statement) {
            feeds + 1
        } else {
            feeds
        };
        self.lane.push(statement)?;
        self.position = Position::Inside { lanes, feeds };
        Ok(())
    }

    /// Puts a statement after the blocks, as one by itself.
    fn push_alone(&mut self, statement: Statement) -> Result<(), AllocError>
        ensures { OnOk result (Pushes Outside statement self.old self.new) }
    {
        let lane = Statements::one(self.alloc, statement)?;
        let lanes = LaneTexts::one(self.alloc, lane)?;
        self.blocks.push(Block {
            several: false,
            lanes,
        })
    }

    /// Ends the text, which has one line less.
    pub fn finish(&self, number: u64) -> Result<(), ScriptRefusal>
        ensures outside { OnOk result (self.now.position ≡ Outside) }
        ensures inside { IfErr result (λ e. IsInside self.now.position × (e ≡ ScriptRefusal.Unexpected number)) }
    {
        match self.position {
            Position::Outside => Ok(()),
            Position::Inside { .. } => Err(ScriptRefusal::Unexpected { line: number }),
        }
    }

    /// The blocks.
    pub fn into_script(self) -> Script
        ensures { result ≡ self.blocks }
    {
        let ScriptBuilder {
            alloc: _,
            position: _,
            blocks,
            lanes,
            lane,
        } = self;
        drop((lanes, lane));
        blocks
    }
}

/// Whether the next line stands before the first lane of a block.
fn is_in_front(position: Position) -> bool
    ensures { IsTrue result ↔ IsInFront position }
{
    match position {
        Position::Outside => false,
        Position::Inside { lanes, .. } => lanes == 0,
    }
}

/// The limit that a statement passes in its position.
fn past_limit(position: Position, statement: &Statement, number: u64) -> Option<ScriptRefusal>
    ensures { MatchOption result (Fits position statement.now) (IsPast position statement.now number) }
{
    let Position::Inside { lanes, feeds } = position else {
        return None;
    };
    if lanes > 1 && is_control(statement) {
        return Some(ScriptRefusal::ControlInLane { line: number });
    }
    if feeds >= MAX_FEEDS && is_feed(statement) {
        return Some(ScriptRefusal::TooManyFeeds { line: number });
    }
    None
}

/// Whether a statement stores the records of a file.
fn is_feed(statement: &Statement) -> bool
    ensures { result ≡ is_feed statement.now }
{
    match statement {
        Statement::Ingest { .. } => true,
        _ => false,
    }
}

/// Whether the first lane of a block alone may hold a statement.
fn is_control(statement: &Statement) -> bool
    ensures { result ≡ is_control statement.now }
{
    match statement {
        Statement::Register { .. } | Statement::Deregister { .. } | Statement::Checkpoint => true,
        _ => false,
    }
}

/// The statement that a line words.
fn read_statement(
    alloc: Global,
    number: u64,
    statement_line: StatementLine,
) -> Result<Statement, ScriptRefusal>
    ensures read { IfOk result (ReadsStatement statement_line) }
    ensures refused { IfErr result (UnlessOutOfMemory (IsNoDefinition statement_line number)) }
{
    match statement_line {
        StatementLine::Register { name, source } => read_register(alloc, number, name, source),
        StatementLine::Deregister { name } => Ok(Statement::Deregister { name }),
        StatementLine::Ingest { form, header, file } => Ok(Statement::Ingest {
            form,
            header,
            file,
        }),
        StatementLine::Scan { look } => Ok(scan(look)),
        StatementLine::Explain { look } => Ok(explain(look)),
        StatementLine::Checkpoint => Ok(Statement::Checkpoint),
    }
}

/// A definition that comes.
fn read_register(
    alloc: Global,
    number: u64,
    name: Text,
    source: Bytes,
) -> Result<Statement, ScriptRefusal>
    ensures read { IfOk result (ReadsStatement (word.Register name source)) }
    ensures refused { IfErr result (UnlessOutOfMemory (IsNoDefinition (word.Register name source) number)) }
{
    match parse_def(alloc, source.as_bytes()) {
        Ok(def) => Ok(Statement::Register { name, def }),
        Err(LangRefusal::OutOfMemory) => Err(ScriptRefusal::OutOfMemory),
        Err(refusal) => Err(ScriptRefusal::Definition {
            line: number,
            refusal,
        }),
    }
}

fn scan(look: Look) -> Statement
    ensures { ReadsStatement (word.Scan look) result }
{
    let Look { name, value, range } = look;
    let Range { from, to, by } = range;
    Statement::Scan {
        name,
        value,
        from,
        to,
        by,
    }
}

fn explain(look: Look) -> Statement
    ensures { ReadsStatement (word.Explain look) result }
{
    let Look { name, value, range } = look;
    let Range { from, to, by } = range;
    Statement::Explain {
        name,
        value,
        from,
        to,
        by,
    }
}
