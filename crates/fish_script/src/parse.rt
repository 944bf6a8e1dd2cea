//! Scripts from their text, in one pass over its bytes.

ghost use Rattle.std.specs.Prelude.{◌≤◌, length, IfErr, IfOk, OnOk, []};
ghost use Rattle.fish_script.specs.Limits.{longest_script};
ghost use Rattle.fish_script.specs.within.Building.{HasBuilt, IsSoFar, UnlessOutOfMemory};
ghost use Rattle.fish_script.specs.Refusals.{IsRefusal, IsScript};

use crate::builder::ScriptBuilder;
use crate::line::first_line;
use crate::refusal::ScriptRefusal;
use crate::script::{MAX_SCRIPT, Script};
use std::alloc::Global;

/// The script that a text is.
pub fn parse_script(alloc: Global, b: &[u8]) -> Result<Script, ScriptRefusal>
    ensures script { IfOk result (IsScript b.now) }
    ensures refused { IfErr result (IsRefusal b.now) }
{
    if b.len() > MAX_SCRIPT {
        return Err(ScriptRefusal::TooLong {
            length: b.len() as u64,
        });
    }
    let mut builder = ScriptBuilder::new(alloc);
    match read_lines(&mut builder, b) {
        Ok(()) => Ok(builder.into_script()),
        Err(refusal) => {
            drop(builder);
            Err(refusal)
        }
    }
}

/// Takes each line of a text, and its end.
fn read_lines(builder: &mut ScriptBuilder, b: &[u8]) -> Result<(), ScriptRefusal>
    requires size { length b.now ≤ longest_script }
    requires new { HasBuilt [] builder.old }
    ensures script { OnOk result (IsScript b.now builder.new.blocks) }
    ensures refused { IfErr result (IsRefusal b.now) }
{
    let mut rest = b;
    let mut number: u64 = 0;
    while !rest.is_empty() {
        let (line, behind) = first_line(rest);
        number += 1;
        builder.take_line(number, line)?;
        rest = behind;
    }
    builder.finish(number + 1)
}
