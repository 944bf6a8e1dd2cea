//! Why words are no command.

use fish_lang::LangRefusal;
use std::alloc::AllocError;
use std::fmt;

/// Why words are no command.
#[derive(Clone, Copy, Debug)]
pub enum UsageCause {
    /// They are off the grammar of commands.
    Words,
    /// They are on it, and the definition is none.
    Definition(LangRefusal),
    /// The definition is one, and the value is none.
    Value,
}

/// Why they are none, in words.
impl fmt::Display for UsageCause {
    ghost use Rattle.std.specs.Prelude.{Some};
    ghost use Rattle.fish_command.specs.RefusalText.{usage_text};

    ghost output = { λ cause. Some (usage_text cause) };

    fn fmt<W: fmt::Write>(&self, f: &mut fmt::Formatter<W>) -> fmt::Result {
        match self {
            UsageCause::Words => write!(f, "words"),
            UsageCause::Definition(refusal) => write!(f, "definition {refusal}"),
            UsageCause::Value => write!(f, "value"),
        }
    }
}

/// Why a command was not read.
#[derive(Clone, Copy, Debug)]
pub enum CommandRefusal {
    /// The words are none.
    Usage(UsageCause),
    /// Memory ran out.
    OutOfMemory,
}

impl From<AllocError> for CommandRefusal {
    ghost use Rattle.std.specs.Prelude.{◌≡◌};
    ghost use Rattle.fish_command.specs.declared.refusal.CommandRefusal.TheVariants.{OutOfMemory};

    ghost from_gives = { λ _ refusal. refusal ≡ OutOfMemory };

    fn from(_: AllocError) -> CommandRefusal {
        CommandRefusal::OutOfMemory
    }
}

impl From<LangRefusal> for CommandRefusal {
    ghost use Rattle.std.specs.Prelude.{◌≡◌};
    ghost use Rattle.fish_command.specs.Command.{definition_refusal};

    ghost from_gives = { λ refusal made. made ≡ definition_refusal refusal };

    fn from(refusal: LangRefusal) -> CommandRefusal {
        match refusal {
            LangRefusal::OutOfMemory => CommandRefusal::OutOfMemory,
            _ => CommandRefusal::Usage(UsageCause::Definition(refusal)),
        }
    }
}
