//! The words with which the process was started, from its arguments as std answers them.

ghost use Rattle.std.specs.IoError.{error_kind};
ghost use Rattle.std.specs.Prelude.{◌≡◌, IfErr, IfOk, MatchResult, drop, map, string_bytes};
ghost use Rattle.std.specs.Vec.Iter.{into_iter_items};
ghost use Rattle.fishstore.specs.within.Args.{IsArgsFault, store_name};

use fish_command::UsageCause;
use fish_program::Fault;
use fish_value::{Text, Texts};
use std::alloc::{AllocError, Global};
use std::env::Args;
use std::io;
use std::io::{Error, ErrorKind};

/// The words of the command line: the arguments of the process after the first, which is the program's name.
pub fn words_of(alloc: Global, args: io::Result<Args>) -> Result<Texts, Fault>
    ensures words { IfOk result (λ words. MatchResult args
        (λ all. words ≡ map string_bytes (drop 1 (into_iter_items all))) (λ _. ⊥)) }

    ensures refused { IfErr result (λ fault. MatchResult args
        (λ _. fault ≡ Fault.Memory) (λ error. IsArgsFault (error_kind error) fault)) }
{
    match args {
        Ok(args) => Ok(behind_name(alloc, args)?),
        Err(error) => Err(args_fault(&error)),
    }
}

/// The words after the first, which is the program's name.
fn behind_name(alloc: Global, args: Args) -> Result<Texts, AllocError>
    ensures { IfOk result (λ words. words ≡ map string_bytes (drop 1 (into_iter_items args))) }
{
    let mut behind = args;
    drop(behind.next());
    let mut words = Texts::new(alloc);
    for word in behind {
        words.push(Text::from_string(word))?;
    }
    Ok(words)
}

/// The name of the store that words speak of: the word after `run`. Of other words it is empty.
pub fn store_of(alloc: Global, words: &[Text]) -> Result<Text, AllocError>
    ensures { IfOk result (λ name. name ≡ store_name words.now) }
{
    let [verb, store, ..] = words else {
        return Text::copy_of(alloc, "");
    };
    match verb.as_str() {
        "run" => store.again(alloc),
        _ => Text::copy_of(alloc, ""),
    }
}

/// Words that are no text are no command.
fn args_fault(error: &Error) -> Fault
    ensures { IsArgsFault (error_kind error.now) result }
{
    if error.kind() == ErrorKind::OutOfMemory {
        Fault::Memory
    } else {
        Fault::Usage(UsageCause::Words)
    }
}
