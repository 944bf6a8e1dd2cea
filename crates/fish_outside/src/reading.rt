//! A source, or a file, that is read up to so many bytes.

ghost use Rattle.std.specs.Prelude.{◌≡◌, ◌+◌, ◌<◌, ◌≤◌, ◌^◌, ◌++◌, [], length, vec_len};
ghost use Rattle.std.specs.Prelude.{IfOk, IfSome, IsErrOf};
ghost use Rattle.fish_outside.specs.declared.fault.FeedRefusal.TheVariants as refusal;
ghost use Rattle.fish_outside.specs.Content.{IsAtEnd, SameFiles, Took};
ghost use Rattle.fish_outside.specs.Reading.{HasReadCause, ReadsFile, TookAtMost};
ghost use Rattle.fish_outside.specs.within.Reading.{ReadsUpTo};

use crate::fault::FeedRefusal;
use crate::host::Host;
use crate::source::Source;
use fish_value::{Bytes, Text};
use std::alloc::{AllocError, Global};

/// How many bytes one read asks for.
pub const CHUNK: usize = 65_536;

/// The first bytes of the file with a name: all of them, if there are no more than so many, and else so many.
pub fn read_file<H: Host>(
    alloc: Global,
    host: &mut H,
    name: &Text,
    most: usize,
) -> Result<Bytes, FeedRefusal>
    requires { most < 2 ^ 63 }
    ensures file { IfOk result (λ bytes. IfSome (H.files host.new) (λ files. ReadsFile most name.now files bytes)) }
    ensures within { IfOk result (λ bytes. length bytes ≤ most) }
    ensures content { SameFiles (H.files host.old) (H.files host.new) }
    ensures cause { HasReadCause (H.faults host.old) (H.faults host.new) result }
{
    let mut feed = host.feed(alloc, name)?;
    let bytes = read_up_to(alloc, &mut feed, most);
    host.done(feed);
    bytes
}

/// The first bytes of a source, up to so many.
fn read_up_to<S: Source>(alloc: Global, source: &mut S, most: usize) -> Result<Bytes, FeedRefusal>
    requires { most < 2 ^ 63 }
    ensures first { IfOk result (λ bytes. ReadsUpTo most (S.left source.old) (S.left source.new) bytes) }
    ensures within { IfOk result (λ bytes. length bytes ≤ most) }
    ensures most { TookAtMost most (S.left source.old) (S.left source.new) }
    ensures cause { HasReadCause (S.faults source.old) (S.faults source.new) result }
{
    let mut bytes = Bytes::new(alloc);
    let mut buffer = zeros(alloc, CHUNK)?;
    while bytes.len() < most {
        let room = CHUNK.min(most - bytes.len());
        let (part, _) = buffer.split_at_mut(room);
        if read_more(source, part, &mut bytes)? == 0 {
            return Ok(bytes);
        }
    }
    Ok(bytes)
}

/// Reads into a buffer, and puts what came after the bytes.
pub fn read_more<S: Source>(
    source: &mut S,
    part: &mut [u8],
    bytes: &mut Bytes,
) -> Result<usize, FeedRefusal>
    ensures bound { IfOk result (λ n. n ≤ length part.old) }
    ensures gained { IfOk result (λ n. length bytes.new ≡ length bytes.old + n) }
    ensures took { IfOk result (λ n. (more : _) × (bytes.new ≡ bytes.old ++ more)
        × Took (S.left source.old) (S.left source.new) more) }
    ensures end { IfOk result (λ n. 0 < length part.old → n ≡ 0 → IsAtEnd (S.left source.new)) }
    ensures most { TookAtMost (length part.old) (S.left source.old) (S.left source.new) }
    ensures failed { IsErrOf result refusal.Failed → (bytes.new ≡ bytes.old)
        × Took (S.left source.old) (S.left source.new) [] }
    ensures cause { HasReadCause (S.faults source.old) (S.faults source.new) result }
{
    let count = source.read(part)?;
    let (taken, _) = part.split_at(count);
    bytes.append(taken)?;
    Ok(count)
}

/// So many zero bytes.
pub fn zeros(alloc: Global, count: usize) -> Result<Vec<u8>, AllocError>
    ensures { IfOk result (λ bytes. vec_len bytes ≡ count) }
{
    vec![in alloc; 0u8; count]
}
