//! Why a text is no script.

ghost use Rattle.std.specs.Prelude.{◌≡◌};

use fish_lang::LangRefusal;
use std::alloc::AllocError;
use std::error::Error;
use std::fmt;

/// Why a text is no script. Lines count from 1.
#[derive(Clone, Copy, Debug)]
pub enum ScriptRefusal {
    /// It has over 1,048,576 bytes.
    TooLong {
        /// How many it has.
        length: u64,
    },
    /// A line isn't UTF-8.
    NotText {
        line: u64,
    },
    /// A line is no statement, or can't stand there; or the text ends within a block.
    Unexpected {
        /// The line, or one more than there are.
        line: u64,
    },
    /// A definition is none.
    Definition {
        line: u64,
        refusal: LangRefusal,
    },
    /// A `register`, `deregister` or `checkpoint` in a lane after the first.
    ControlInLane {
        line: u64,
    },
    /// The 17th lane of a block.
    TooManyLanes {
        line: u64,
    },
    /// The 257th `ingest` of a block.
    TooManyFeeds {
        line: u64,
    },
    /// Memory ran out.
    OutOfMemory,
}

/// Why it is none, and on which line.
impl fmt::Display for ScriptRefusal {
    ghost use Rattle.std.specs.Prelude.{Some};
    ghost use Rattle.fish_script.specs.RefusalText.{script_refusal_text};

    ghost output = { λ refusal. Some (script_refusal_text refusal) };

    fn fmt<W: fmt::Write>(&self, f: &mut fmt::Formatter<W>) -> fmt::Result {
        match self {
            ScriptRefusal::TooLong { length } => write!(f, "too long {length}"),
            ScriptRefusal::NotText { line } => write!(f, "not text line {line}"),
            ScriptRefusal::Unexpected { line } => write!(f, "unexpected line {line}"),
            ScriptRefusal::Definition { line, refusal } => {
                write!(f, "definition line {line} {refusal}")
            }
            ScriptRefusal::ControlInLane { line } => write!(f, "control in lane line {line}"),
            ScriptRefusal::TooManyLanes { line } => write!(f, "too many lanes line {line}"),
            ScriptRefusal::TooManyFeeds { line } => write!(f, "too many feeds line {line}"),
            ScriptRefusal::OutOfMemory => write!(f, "out of memory"),
        }
    }
}

impl Error for ScriptRefusal {}

impl From<AllocError> for ScriptRefusal {
    ghost use Rattle.fish_script.specs.declared.refusal.ScriptRefusal.TheVariants.{OutOfMemory};

    ghost from_gives = { λ _ refusal. refusal ≡ OutOfMemory };

    fn from(_: AllocError) -> Self {
        ScriptRefusal::OutOfMemory
    }
}
