//! What is selected from a file that is read in parts.

ghost use Rattle.std.specs.Prelude.{◌≡◌, ◌≢◌, ◌<◌, ◌≤◌, ◌+◌, ◌^◌, ◌++◌, ◌⊎◌, ℕ, List, Option, Some, false, true};
ghost use Rattle.std.specs.Prelude.{length, IfErr, IfOk, IfSome, IsSome, OnOk};
ghost use Rattle.fish_feed.specs.OpenFiles.{CanRead, IsFileUnread};
ghost use Rattle.fish_lang.specs.Definition.{definition_of};
ghost use Rattle.fish_value.specs.Outcomes.{accepted};
ghost use Rattle.fish_lines.specs.Resuming.{outcomes_from};
ghost use Rattle.fish_lines.specs.declared.resuming.Begin.TheVariants.{Start};
ghost use Rattle.fish_outside.specs.Content.{SameFiles};
ghost use Rattle.fish_program.specs.within.Answer.{AnswersTo};
ghost use Rattle.fish_program.specs.within.Faults.{IsStepFault};
ghost use Rattle.fish_program.specs.declared.fault.Fault.TheVariants as fault;
ghost use Rattle.fish_program.specs.declared.parts.Next.TheVariants as next;
ghost use Rattle.fish_program.specs.within.Selecting.{HasSelected, IsPassed, IsSelected, OfFile};
ghost use Rattle.fish_select.specs.Selection.{HasFoundRows, most_records};
ghost use Rattle.fish_value.specs.Limits.{longest_file};
ghost use Rattle.fish_value.specs.declared.field.Form.TheVariants.{Json};

use crate::fault::Fault;
use fish_command::Select;
use fish_feed::{AT_ONCE, OpenFile, Part, close_file, open_file, read_part};
use fish_lanes::Work;
use fish_lines::Begin;
use fish_outside::{Host, Source};
use fish_report::Item;
use fish_select::{Found, Query, SelectRefusal, begin_select, end_select, select_part};
use fish_value::MAX_FILE;
use std::alloc::Global;

/// What comes after a part of a file.
#[derive(Clone, Copy, Debug, PartialEq, Eq)]
enum Next {
    /// Another part.
    Part,
    /// Nothing.
    End,
    /// Nothing, since the file is too long.
    TooLong,
}

/// Reads the file of a command in parts, and answers for all of it.
pub(crate) fn select_file<H: Host>(
    alloc: Global,
    command: &Select,
    host: &mut H,
) -> Result<Item, Fault>
where
    H::Feed: Drop,
    ensures answer { IfOk result (λ item. IfSome (H.files host.new)
        (λ files. (b : List ℕ) × (files command.now.file ≡ Some b) × AnswersTo command.now b item)) }
    ensures content { SameFiles (H.files host.old) (H.files host.new) }
    ensures refused { IfErr result (IsStepFault (H.faults host.old) (H.faults host.new)) }
{
    let name = command.file.again(alloc)?;
    let feed = match host.feed(alloc, &command.file) {
        Ok(feed) => feed,
        Err(refusal) => {
            drop(name);
            return Err(Fault::from(refusal));
        }
    };
    let begin = Begin::Start {
        header: command.header,
    };
    let mut file = open_file(alloc, command.form, begin, name, feed);
    let item = select_open(alloc, command, &mut file);
    close_file(host, file);
    item
}

/// Reads all parts of a file of which nothing was read, and answers for them.
fn select_open<F: Source + Drop>(
    alloc: Global,
    command: &Select,
    file: &mut OpenFile<F>,
) -> Result<Item, Fault>
    requires unread { IsFileUnread command.now.form (Start command.now.header) command.now.file file.old.feed file.old }
    requires can { CanRead F.faults file.old }
    ensures answer { IfOk result (λ item. OfFile F.left (F.left file.old.feed) file.new
        (λ b. AnswersTo command.now b item)) }
    ensures content { IsSome (F.left file.new.feed) → IsSome (F.left file.old.feed) }
    ensures refused { IfErr result (IsStepFault 0 (F.faults file.new.feed)) }
{
    let mut found = begin_select(alloc);
    loop {
        match add_next(alloc, command, file, &mut found) {
            Ok(Next::Part) => {}
            Ok(Next::End) => return Ok(end_select(found)),
            Ok(Next::TooLong) => {
                drop(found);
                let file = command.file.again(alloc)?;
                return Ok(Item::SelectTooLong { file });
            }
            Err(fault) => {
                drop(found);
                return Err(fault);
            }
        }
    }
}

/// Reads the next part of a file, and adds what it gives.
fn add_next<F: Source + Drop>(
    alloc: Global,
    command: &Select,
    file: &mut OpenFile<F>,
    found: &mut Found,
) -> Result<Next, Fault>
    requires can { CanRead F.faults file.old }
    requires selected { (at_first : Option (List ℕ)) × HasSelected F.left at_first command.now file.old found.old }
    ensures part { IfOk result (λ n. n ≡ next.Part → (file.new.room < file.old.room)
        × ((at_first : Option (List ℕ)) → HasSelected F.left at_first command.now file.old found.old
        → HasSelected F.left at_first command.now file.new found.new)) }
    ensures end { IfOk result (λ n. n ≡ next.End → (at_first : Option (List ℕ))
        → HasSelected F.left at_first command.now file.old found.old
        → IsSelected F.left at_first command.now file.new found.new) }
    ensures long { IfOk result (λ n. n ≡ next.TooLong → (at_first : Option (List ℕ))
        → HasSelected F.left at_first command.now file.old found.old
        → IsPassed F.left at_first command.now file.new) }
    ensures can { OnOk result (CanRead F.faults file.new) }
    ensures content { IsSome (F.left file.new.feed) → IsSome (F.left file.old.feed) }
    ensures refused { IfErr result (IsStepFault 0 (F.faults file.new.feed)) }
{
    let Part { work, last } = read_part(alloc, file, AT_ONCE)?;
    match work {
        Work::Ingest {
            begin,
            name,
            file: bytes,
            ..
        } => {
            drop(name);
            let added = add_bytes(alloc, command, begin, bytes.as_bytes(), last, found);
            drop(bytes);
            added
        }
        other => {
            drop(other);
            unreachable!()
        }
    }
}

/// Adds what the bytes of a part give, or of all that is left of a file.
fn add_bytes(
    alloc: Global,
    command: &Select,
    begin: Begin,
    bytes: &[u8],
    last: bool,
    found: &mut Found,
) -> Result<Next, Fault>
    requires part { last ≡ false → command.now.form ≡ Json }
    requires room { found.old.count + found.old.refused + length bytes.now < 2 ^ 63 }
    ensures found { IfOk result (λ n. n ≢ next.TooLong → (os : List (Option (List ℕ)))
        → HasFoundRows (definition_of command.now.def) command.now.value command.now.form os found.old
        → HasFoundRows (definition_of command.now.def) command.now.value command.now.form
        (os ++ outcomes_from command.now.form begin bytes.now) found.new) }
    ensures rises { IfOk result (λ n. n ≢ next.TooLong
        → found.new.count + found.new.refused ≤ found.old.count + found.old.refused + length bytes.now) }
    ensures part { IfOk result (λ n. n ≡ next.Part → last ≡ false) }
    ensures end { IfOk result (λ n. n ≡ next.End → (last ≡ true) × (length bytes.now ≤ longest_file)) }
    ensures long { IfOk result (λ n. n ≡ next.TooLong → ((last ≡ true) × (longest_file < length bytes.now))
        ⊎ ((last ≡ true → length bytes.now ≤ longest_file) × (most_records
        < found.old.count + length (accepted (outcomes_from command.now.form begin bytes.now))))) }
    ensures memory { IfErr result (λ f. f ≡ fault.Memory) }
{
    if last && bytes.len() > MAX_FILE {
        return Ok(Next::TooLong);
    }
    let query = Query {
        def: &command.def,
        value: &command.value,
        form: command.form,
    };
    match select_part(alloc, &query, begin, bytes, found) {
        Ok(()) => Ok(if last { Next::End } else { Next::Part }),
        Err(SelectRefusal::TooMany) => Ok(Next::TooLong),
        Err(SelectRefusal::OutOfMemory) => Err(Fault::Memory),
    }
}
