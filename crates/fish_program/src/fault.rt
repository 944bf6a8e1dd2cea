//! What stops a run, and the line that tells of it.

ghost use Rattle.std.specs.Prelude.{◌≡◌};

use fish_command::{CommandRefusal, UsageCause};
use fish_outside::FeedRefusal;
use fish_recover::OpenRefusal;
use fish_run::RunFault;
use fish_script::ScriptRefusal;
use std::alloc::AllocError;
use std::fmt;

/// What stopped a run.
#[derive(Clone, Copy)]
pub enum Fault {
    /// Nothing did.
    None,
    /// The words are no command.
    Usage(UsageCause),
    /// The text of the script is none.
    Script(ScriptRefusal),
    /// The disk has no store of the shape that is asked for, or what it has of a record is none.
    Store(OpenRefusal),
    /// The disk failed.
    Disk,
    /// The input failed.
    Input,
    /// The output failed.
    Output,
    /// Memory ran out.
    Memory,
}

/// The line on standard error that tells of the fault.
impl fmt::Display for Fault {
    ghost use Rattle.std.specs.Prelude.{Some};
    ghost use Rattle.fish_program.specs.Faults.{fault_line};

    ghost output = { λ fault. Some (fault_line fault) };

    fn fmt<W: fmt::Write>(&self, f: &mut fmt::Formatter<W>) -> fmt::Result {
        match self {
            Fault::None => write!(f, "fault none"),
            Fault::Usage(cause) => write!(f, "fault usage {cause}"),
            Fault::Script(refusal) => write!(f, "fault script {refusal}"),
            Fault::Store(refusal) => write!(f, "fault store {refusal}"),
            Fault::Disk => write!(f, "fault disk"),
            Fault::Input => write!(f, "fault input"),
            Fault::Output => write!(f, "fault output"),
            Fault::Memory => write!(f, "fault memory"),
        }
    }
}

impl From<CommandRefusal> for Fault {
    ghost use Rattle.std.specs.Prelude.{◌≡◌};
    ghost use Rattle.fish_program.specs.Faults.{command_fault};

    ghost from_gives = { λ refusal made. made ≡ command_fault refusal };

    fn from(refusal: CommandRefusal) -> Fault {
        match refusal {
            CommandRefusal::Usage(cause) => Fault::Usage(cause),
            CommandRefusal::OutOfMemory => Fault::Memory,
        }
    }
}

impl From<ScriptRefusal> for Fault {
    ghost use Rattle.std.specs.Prelude.{◌≡◌};
    ghost use Rattle.fish_program.specs.Faults.{script_fault};

    ghost from_gives = { λ refusal made. made ≡ script_fault refusal };

    fn from(refusal: ScriptRefusal) -> Fault {
        match refusal {
            ScriptRefusal::OutOfMemory => Fault::Memory,
            _ => Fault::Script(refusal),
        }
    }
}

impl From<OpenRefusal> for Fault {
    ghost use Rattle.std.specs.Prelude.{◌≡◌};
    ghost use Rattle.fish_program.specs.Faults.{open_fault};

    ghost from_gives = { λ refusal made. made ≡ open_fault refusal };

    fn from(refusal: OpenRefusal) -> Fault {
        match refusal {
            OpenRefusal::DiskFault => Fault::Disk,
            OpenRefusal::OutOfMemory => Fault::Memory,
            _ => Fault::Store(refusal),
        }
    }
}

impl From<RunFault> for Fault {
    ghost use Rattle.std.specs.Prelude.{◌≡◌};
    ghost use Rattle.fish_program.specs.Faults.{run_fault};

    ghost from_gives = { λ fault made. made ≡ run_fault fault };

    fn from(fault: RunFault) -> Fault {
        match fault {
            RunFault::Input => Fault::Input,
            RunFault::Output => Fault::Output,
            RunFault::Memory => Fault::Memory,
            RunFault::Disk => Fault::Disk,
            RunFault::Damaged { number } => Fault::Store(OpenRefusal::Damaged { number }),
        }
    }
}

impl From<FeedRefusal> for Fault {
    ghost use Rattle.std.specs.Prelude.{◌≡◌};
    ghost use Rattle.fish_program.specs.Faults.{fault_of_feed};

    ghost from_gives = { λ refusal made. made ≡ fault_of_feed refusal };

    fn from(refusal: FeedRefusal) -> Fault {
        match refusal {
            FeedRefusal::Failed => Fault::Input,
            FeedRefusal::OutOfMemory => Fault::Memory,
        }
    }
}

impl From<AllocError> for Fault {
    ghost use Rattle.std.specs.Prelude.{◌≡◌};
    ghost use Rattle.fish_program.specs.declared.fault.Fault.TheVariants.{Memory};

    ghost from_gives = { λ _ made. made ≡ Memory };

    fn from(_: AllocError) -> Fault {
        Fault::Memory
    }
}
