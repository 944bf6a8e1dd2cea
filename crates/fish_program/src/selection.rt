//! The command `select`: the records of a file on which a definition has a value, as a report.

ghost use Rattle.std.specs.Prelude.{◌≡◌, ◌∷◌, [], IfErr, IfOk, IfSome, None};
ghost use Rattle.std.specs.List.{list_any};
ghost use Rattle.fish_outside.specs.Causes.{Rose};
ghost use Rattle.fish_outside.specs.Content.{SameFiles};
ghost use Rattle.fish_report.specs.ReportText.{is_refusal, report_text};
ghost use Rattle.fish_program.specs.Answer.{IsFileAnswer};
ghost use Rattle.fish_program.specs.within.Answer.{AnswersTo};
ghost use Rattle.fish_program.specs.within.Faults.{IsStepFault};
ghost use Rattle.fish_program.specs.Outcome.{EndsSelect, status_of};

use crate::fault::Fault;
use crate::outcome::Outcome;
use crate::parts::select_file;
use fish_command::Select;
use fish_outside::{Host, Sink, write_whole};
use fish_report::{Item, Items, Report, report_text};
use fish_value::Text;
use std::alloc::{AllocError, Global};

/// Runs a `select`: its report is made, and then written.
pub(crate) fn answer_select<H: Host, W: Sink>(
    alloc: Global,
    command: &Select,
    host: &mut H,
    out: &mut W,
) -> Outcome
where
    H::Feed: Drop,
    ensures status { result.status ≡ status_of result.fault result.refused }
    ensures ended { EndsSelect (AnswersTo command.now) command.now.file (H.files host.new) (W.written out.old)
        (W.written out.new) result result.fault }
    ensures content { SameFiles (H.files host.old) (H.files host.new) }
    ensures input { result.fault ≡ Fault.Input → Rose (H.faults host.old) (H.faults host.new) }
    ensures output { result.fault ≡ Fault.Output → Rose (W.faults out.old) (W.faults out.new) }
{
    match prepare(alloc, command, host) {
        Ok(Prepared { report, text }) => match write_whole(out, text.as_bytes()) {
            Ok(()) => told(Fault::None, report),
            Err(_) => told(Fault::Output, report),
        },
        Err(fault) => Outcome::failed(alloc, fault),
    }
}

/// The end of a run with this fault, whose report was made.
fn told(fault: Fault, report: Report) -> Outcome
    ensures status { result.status ≡ status_of fault result.refused }
    ensures fault { result.fault ≡ fault }
    ensures refused { result.refused ≡ list_any is_refusal report.items }
    ensures report { result.report ≡ report }
    ensures remains { result.remains ≡ None }
{
    let refused = has_refusal(report.items.as_slice());
    Outcome::new(fault, refused, report, None)
}

/// Whether an item tells of a refusal.
fn has_refusal(items: &[Item]) -> bool
    ensures { result ≡ list_any is_refusal items.now }
{
    items.iter().any(|item| item.is_refusal())
}

/// The report of a command, and its text.
#[derive(Drop)]
struct Prepared {
    report: Report,
    text: Text,
}

/// Reads the file of a command, and makes the report and its text.
fn prepare<H: Host>(alloc: Global, command: &Select, host: &mut H) -> Result<Prepared, Fault>
where
    H::Feed: Drop,
    ensures answer { IfOk result (λ prepared. IfSome (H.files host.new)
        (λ files. IsFileAnswer (AnswersTo command.now) command.now.file files prepared.report.items)) }
    ensures text { IfOk result (λ prepared. prepared.text ≡ report_text prepared.report.items) }
    ensures content { SameFiles (H.files host.old) (H.files host.new) }
    ensures refused { IfErr result (IsStepFault (H.faults host.old) (H.faults host.new)) }
{
    let item = select_file(alloc, command, host)?;
    let report = report_of(alloc, item)?;
    match report_text(alloc, &report) {
        Ok(text) => Ok(Prepared { report, text }),
        Err(want) => {
            drop(report);
            Err(Fault::from(want))
        }
    }
}

/// The report of one item.
fn report_of(alloc: Global, item: Item) -> Result<Report, AllocError>
    ensures { IfOk result (λ report. report.items ≡ item ∷ []) }
{
    let mut items = Items::new(alloc);
    match items.push(item) {
        Ok(()) => Ok(Report { items }),
        Err(want) => {
            drop(items);
            Err(want)
        }
    }
}
