//! The words of a command line.

ghost use Rattle.std.specs.Prelude.{◌≡◌, Ok, Err, IfOk, IfErr};
ghost use Rattle.fish_command.specs.Command.{IsCommand, IsCommandRefused, IsRefusedCommand, IsSelectCommand, asked_of};
ghost use Rattle.fish_command.specs.Command.{run};
ghost use Rattle.fish_command.specs.Sizes.{AreBits, ArePages};

use crate::command::{Command, Run, Sample, Select};
use crate::options::Layout;
use crate::refusal::{CommandRefusal, UsageCause};
use crate::request::{CommandParts, request_of};
use fish_lang::parse_def;
use fish_value::{Text, read_value};
use std::alloc::{AllocError, Global};

/// Reads a command: `select`, `run` or `sample`, with its words and its options. The words are those after the
/// program's name.
pub fn parse_command(alloc: Global, words: &[Text]) -> Result<Command, CommandRefusal>
    ensures ok { IfOk result (λ command. IsCommand words.now (Ok (asked_of command))) }
    ensures refused { IfErr result (IsRefusedCommand words.now) }
{
    match request_of(alloc, words)? {
        Some(
            CommandParts::Select {
                def,
                value,
                file,
                layout,
            },
        ) => read_select(alloc, def, value, file, layout),
        Some(
            CommandParts::Run {
                store,
                script,
                pages,
                bits,
            },
        ) => read_run(alloc, store, script, pages, bits),
        Some(CommandParts::Sample { number }) => Ok(Command::Sample(Sample { number })),
        None => Err(CommandRefusal::Usage(UsageCause::Words)),
    }
}

/// Reads the definition and the value of a `select`, in this order.
fn read_select(
    alloc: Global,
    def: &str,
    value: &str,
    file: &str,
    layout: Layout,
) -> Result<Command, CommandRefusal>
    ensures ok { IfOk result (λ command. IsSelectCommand def.now value.now file.now layout (Ok (asked_of command))) }
    ensures refused { IfErr result (IsCommandRefused (IsSelectCommand def.now value.now file.now layout)) }
{
    let def = parse_def(alloc, def.as_bytes())?;
    let value = match read_value(alloc, value.as_bytes()) {
        Ok(Some(value)) => value,
        Ok(None) => {
            drop(def);
            return Err(CommandRefusal::Usage(UsageCause::Value));
        }
        Err(error) => {
            drop(def);
            return Err(CommandRefusal::from(error));
        }
    };
    let Layout { form, header } = layout;
    match Text::copy_of(alloc, file) {
        Ok(file) => Ok(Command::Select(Select {
            def,
            value,
            form,
            header,
            file,
        })),
        Err(error) => {
            drop((def, value));
            Err(CommandRefusal::from(error))
        }
    }
}

/// Copies the names of a `run`.
fn read_run(
    alloc: Global,
    store: &Text,
    script: &str,
    pages: Option<u16>,
    bits: Option<u8>,
) -> Result<Command, CommandRefusal>
    requires pages_within { ArePages pages }
    requires bits_within { AreBits bits }
    ensures ok { IfOk result (λ command. asked_of command ≡ run store.now script.now pages bits) }
    ensures refused { IfErr result (λ refusal. refusal ≡ CommandRefusal.OutOfMemory) }
{
    let store = store.again(alloc)?;
    match Text::copy_of(alloc, script) {
        Ok(script) => Ok(Command::Run(Run {
            store,
            script,
            pages,
            bits,
        })),
        Err(error) => {
            drop(store);
            Err(CommandRefusal::from(error))
        }
    }
}
