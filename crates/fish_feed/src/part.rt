//! A file that is read in parts: each ends with a line, and the next one is read when it is wanted.

ghost use Rattle.std.specs.Prelude.{◌≡◌, ◌<◌, ◌≤◌, ◌+◌, [], None, length, take, true, false};
ghost use Rattle.std.specs.Prelude.{IfOk, IfSome, IsErrOf, IsSome, OnErr, OnOk};
ghost use Rattle.fish_feed.specs.Parts.{EndsLine, HasNoEnd, longest_csv_read};
ghost use Rattle.fish_feed.specs.OpenFiles.{CanRead, GivesPart, IsStuck, IsFileUnread};
ghost use Rattle.fish_feed.specs.within.OpenFiles.{HasReadMore, IsCutOff, HoldsWanted, ReadsOnFile};
ghost use Rattle.fish_lanes.specs.declared.work.Work.TheVariants as work;
ghost use Rattle.fish_outside.specs.Causes.{Rose, counted_on};
ghost use Rattle.fish_outside.specs.Content.{IsAtEnd, SameFiles};
ghost use Rattle.fish_outside.specs.declared.fault.FeedRefusal.TheVariants as refusal;

use fish_lanes::Work;
use fish_lines::Begin;
use fish_outside::{CHUNK, FeedRefusal, Host, Source, zeros};
use fish_value::{Bytes, Form, Text};
use memchr::memrchr;
use std::alloc::{AllocError, Global};
use std::mem::replace;

/// How many bytes of a file are given at once at most: one more than are stored at once.
const LONGEST_READ: usize = 67_108_865;

/// How many bytes of files a lane is given at once, or a part of a file more: what memory a long file takes, and how
/// often lanes wait for each other. A part is longer only where none of its first bytes, so many, ends a line.
pub const AT_ONCE: usize = 1_048_576;

/// How many bytes of a file in JSON are given in parts at most.
const LONGEST_IN_PARTS: u64 = 68_719_476_736;

/// A file that is being read.
#[derive(Drop)]
pub struct OpenFile<F: Source> {
    /// The form of its records.
    pub form: Form,
    /// Where the reading of its records goes on.
    pub begin: Begin,
    /// Its name.
    pub name: Text,
    /// Where its bytes come from.
    pub feed: F,
    /// The bytes that came and were not given.
    pub rest: Bytes,
    /// How many bytes may still be given in parts.
    pub room: u64,
    /// Whether a read failed.
    pub failed: bool,
    /// Whether bytes that came were lost, since memory ran out.
    pub lost: bool,
}

/// A part of a file, or the rest of it.
#[derive(Drop)]
pub struct Part {
    /// The ingest of its bytes.
    pub work: Work,
    /// Whether it is the rest.
    pub last: bool,
}

/// A file of which nothing was read.
pub fn open_file<F: Source>(
    alloc: Global,
    form: Form,
    begin: Begin,
    name: Text,
    feed: F,
) -> OpenFile<F>
    ensures file { IsFileUnread form begin name feed result }
    ensures can { CanRead F.faults result }
{
    OpenFile {
        form,
        begin,
        name,
        feed,
        rest: Bytes::new(alloc),
        room: LONGEST_IN_PARTS,
        failed: false,
        lost: false,
    }
}

/// The next part of a file, of about so many bytes; what is left of it, where it has no more, or is in CSV, or has no
/// line that ends within 67,108,865 bytes. At a read that fails the lines so far are given first.
pub fn read_part<F: Source>(
    alloc: Global,
    file: &mut OpenFile<F>,
    most: usize,
) -> Result<Part, FeedRefusal>
    requires can { CanRead F.faults file.old }
    requires most { most ≤ longest_csv_read }
    ensures part { IfOk result (λ p. GivesPart F.left file.old p file.new) }
    ensures can { OnOk result (CanRead F.faults file.new) }
    ensures content { IsSome (F.left file.new.feed) → IsSome (F.left file.old.feed) }
    ensures cause { IsErrOf result refusal.Failed → Rose 0 (F.faults file.new.feed) }
{
    if let Some(part) = read_until(alloc, file, most)? {
        return Ok(part);
    }
    if let Some(part) = read_until(alloc, file, LONGEST_READ)? {
        return Ok(part);
    }
    if file.failed {
        return Err(FeedRefusal::Failed);
    }
    let work = rest_of(alloc, file)?;
    Ok(Part { work, last: true })
}

/// Reads until so many bytes of a file have come, and gives the whole lines of them, or all where that is its end.
fn read_until<F: Source>(
    alloc: Global,
    file: &mut OpenFile<F>,
    wanted: usize,
) -> Result<Option<Part>, AllocError>
    requires can { CanRead F.faults file.old }
    requires wanted { wanted ≤ longest_csv_read }
    ensures some { IfOk result (λ found. IfSome found (λ p. GivesPart F.left file.old p file.new)) }
    ensures none { IfOk result (λ found. found ≡ None → HasReadMore F.left file.old file.new) }
    ensures full { IfOk result (λ found. found ≡ None → HoldsWanted wanted file.new
        × IsStuck file.new.form file.new.room file.new.rest) }
    ensures can { OnOk result (CanRead F.faults file.new) }
    ensures content { IsSome (F.left file.new.feed) → IsSome (F.left file.old.feed) }
{
    if read_ahead(alloc, file, wanted)? {
        let work = rest_of(alloc, file)?;
        return Ok(Some(Part { work, last: true }));
    }
    match cut_off(alloc, file)? {
        Some(work) => Ok(Some(Part { work, last: false })),
        None => Ok(None),
    }
}

/// Reads until so many bytes of a file have come, and says whether it has no more. A read that fails only ends that.
fn read_ahead<F: Source>(
    alloc: Global,
    file: &mut OpenFile<F>,
    wanted: usize,
) -> Result<bool, AllocError>
    requires can { CanRead F.faults file.old }
    requires wanted { wanted ≤ longest_csv_read }
    ensures read { OnOk result (HasReadMore F.left file.old file.new) }
    ensures on { ReadsOnFile F.left file.old file.new }
    ensures end { IfOk result (λ end. end ≡ true → IsAtEnd (F.left file.new.feed)
        × (length file.new.rest < wanted)) }
    ensures full { IfOk result (λ end. end ≡ false → HoldsWanted wanted file.new) }
    ensures can { CanRead F.faults file.new }
{
    if file.lost {
        return Err(AllocError);
    }
    if file.failed {
        return Ok(false);
    }
    let mut buffer = zeros(alloc, CHUNK)?;
    while file.rest.len() < wanted {
        let room = CHUNK.min(wanted - file.rest.len());
        let (part, _) = buffer.split_at_mut(room);
        match read_some(file, part)? {
            Some(0) => return Ok(true),
            Some(_) => {}
            None => return Ok(false),
        }
    }
    Ok(false)
}

/// Reads into a buffer, and puts what came after the bytes of the file that came before: how many, or nothing where the
/// read failed.
fn read_some<F: Source>(
    file: &mut OpenFile<F>,
    part: &mut [u8],
) -> Result<Option<usize>, AllocError>
    requires whole { file.old.lost ≡ false }
    ensures read { OnOk result (HasReadMore F.left file.old file.new) }
    ensures on { ReadsOnFile F.left file.old file.new }
    ensures some { IfOk result (λ found. IfSome found (λ n. (n ≤ length part.old)
        × (length file.new.rest ≡ length file.old.rest + n) × (file.new.failed ≡ file.old.failed)
        × (0 < length part.old → n ≡ 0 → IsAtEnd (F.left file.new.feed)))) }
    ensures none { IfOk result (λ found. found ≡ None → (file.new.rest ≡ file.old.rest) × (file.new.failed ≡ true)
        × Rose 0 (F.faults file.new.feed)) }
    ensures err { OnErr result ((file.new.rest ≡ file.old.rest) × (file.new.failed ≡ file.old.failed)) }
{
    match file.feed.read(part) {
        Ok(count) => {
            let (taken, _) = part.split_at(count);
            match file.rest.append(taken) {
                Ok(()) => Ok(Some(count)),
                Err(want) => {
                    file.lost = true;
                    Err(want)
                }
            }
        }
        Err(_) => {
            file.failed = true;
            Ok(None)
        }
    }
}

/// Reads on in a file, until as much of it has come as a lane is given at once. A failure shows once that is given.
pub(crate) fn read_on<F: Source>(alloc: Global, file: &mut OpenFile<F>)
    requires can { CanRead F.faults file.old }
    ensures on { ReadsOnFile F.left file.old file.new }
    ensures can { CanRead F.faults file.new }
{
    match read_ahead(alloc, file, AT_ONCE) {
        Ok(_) => {}
        Err(_) => {}
    }
}

/// Cuts off the whole lines of the bytes that came, where the file is in JSON and there are any.
fn cut_off<F: Source>(alloc: Global, file: &mut OpenFile<F>) -> Result<Option<Work>, AllocError>
    ensures some { IfOk result (λ found. IfSome found (IsCutOff file.old file.new)) }
    ensures none { IfOk result (λ found. found ≡ None → file.new ≡ file.old) }
    ensures stuck { IfOk result (λ found. found ≡ None
        → IsStuck file.old.form file.old.room file.old.rest) }
    ensures err { OnErr result (file.new ≡ file.old) }
{
    if file.form != Form::Json {
        return Ok(None);
    }
    let Some(end) = line_end(file.rest.as_bytes()) else {
        return Ok(None);
    };
    if end as u64 > file.room {
        return Ok(None);
    }
    let name = file.name.again(alloc)?;
    let (_, after) = file.rest.as_bytes().split_at(end);
    // Room for the next part, so that its bytes aren't moved again as they come.
    let mut rest = Bytes::with_room(alloc, AT_ONCE)?;
    rest.append(after)?;
    let begin = replace(&mut file.begin, Begin::After);
    let mut part = replace(&mut file.rest, rest);
    part.truncate(end);
    file.room -= end as u64;
    Ok(Some(Work::Ingest {
        form: file.form,
        begin,
        name,
        file: part,
    }))
}

/// Where the last of the whole lines of these bytes ends, if there are any.
fn line_end(b: &[u8]) -> Option<usize>
    ensures within { IfSome result (λ n. (0 < n) × (n ≤ length b.now)) }
    ensures line { IfSome result (λ n. EndsLine (take n b.now)) }
    ensures none { result ≡ None → HasNoEnd b.now }
{
    let last = memrchr(b'\n', b)?;
    Some(last + 1)
}

/// All bytes that came, as what is left of a file.
fn rest_of<F: Source>(alloc: Global, file: &mut OpenFile<F>) -> Result<Work, AllocError>
    ensures work { IfOk result (λ w. w ≡ work.Ingest file.old.form file.old.begin file.old.name file.old.rest) }
    ensures rest { OnOk result (file.new.rest ≡ []) }
    ensures feed { file.new.feed ≡ file.old.feed }
    ensures failed { file.new.failed ≡ file.old.failed }
{
    let name = file.name.again(alloc)?;
    let rest = replace(&mut file.rest, Bytes::new(alloc));
    Ok(Work::Ingest {
        form: file.form,
        begin: file.begin,
        name,
        file: rest,
    })
}

/// Gives the feed of a file back.
pub fn close_file<H: Host>(host: &mut H, file: OpenFile<H::Feed>)
where
    H::Feed: Drop,
    ensures content { SameFiles (H.files host.old) (H.files host.new) }
    ensures feed { IsSome (H.files host.new) → IsSome (H.Feed.left file.feed) }
    ensures faults { H.faults host.new ≡ counted_on (H.faults host.old) (H.Feed.faults file.feed) }
{
    let OpenFile {
        name,
        feed,
        rest,
        ..
    } = file;
    drop((name, rest));
    host.done(feed);
}
