//! How a run ends.

ghost use Rattle.std.specs.Prelude.{◌≡◌, [], None};
ghost use Rattle.std.specs.Process.{exit_status};
ghost use Rattle.fish_program.specs.Faults.{printed_fault};
ghost use Rattle.fish_program.specs.Outcome.{status_of};

use crate::fault::Fault;
use fish_report::{Items, Report};
use fish_rule::Remains;
use std::alloc::Global;
use std::process::ExitCode;

/// The end of a run.
#[derive(Drop)]
pub struct Outcome {
    /// The exit status.
    pub status: u8,
    /// What stopped it.
    pub fault: Fault,
    /// Whether something was refused.
    pub refused: bool,
    /// What `select` tells. What `run` tells is written block by block, and isn't kept.
    pub report: Report,
    /// What the last table had of the log of a run or a sample, where it was closed.
    pub remains: Option<Remains>,
}

impl Outcome {
    /// The end of a run with these parts.
    pub fn new(fault: Fault, refused: bool, report: Report, remains: Option<Remains>) -> Outcome
        ensures status { result.status ≡ status_of fault refused }
        ensures fault { result.fault ≡ fault }
        ensures refused { result.refused ≡ refused }
        ensures report { result.report ≡ report }
        ensures remains { result.remains ≡ remains }
    {
        Outcome {
            status: status(fault, refused),
            fault,
            refused,
            report,
            remains,
        }
    }

    /// The end of a run in which this fault came before anything was done.
    pub fn failed(alloc: Global, fault: Fault) -> Outcome
        ensures status { result.status ≡ status_of fault result.refused }
        ensures fault { result.fault ≡ fault }
        ensures report { result.report.items ≡ [] }
        ensures remains { result.remains ≡ None }
    {
        Outcome::new(fault, false, no_report(alloc), None)
    }

    /// The fault whose line goes to standard error, where there is one.
    pub fn told(&self) -> Option<Fault>
        ensures { result ≡ printed_fault self.now.fault }
    {
        match self.fault {
            Fault::None => None,
            fault => Some(fault),
        }
    }

    /// The status with which the process ends.
    pub fn exit_code(&self) -> ExitCode
        ensures { exit_status result ≡ self.now.status }
    {
        ExitCode::from(self.status)
    }
}

/// A report without an item.
pub(crate) fn no_report(alloc: Global) -> Report
    ensures { result.items ≡ [] }
{
    Report {
        items: Items::new(alloc),
    }
}

/// The exit status of a fault, and of whether something was refused.
fn status(fault: Fault, refused: bool) -> u8
    ensures { result ≡ status_of fault refused }
{
    match fault {
        Fault::None => { if refused { 3 } else { 0 } }
        Fault::Usage(_) => 1,
        Fault::Script(_) => 2,
        Fault::Store(_) => 4,
        Fault::Disk => 5,
        Fault::Input => 6,
        Fault::Output => 7,
        Fault::Memory => 8,
    }
}
