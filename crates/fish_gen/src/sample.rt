//! A record of a sample.

ghost use Rattle.std.specs.Prelude.{◌≡◌, IfOk};
ghost use Rattle.fish_gen.specs.Sample.{sample_key, sample_text};

use fish_value::Text;
use std::alloc::{AllocError, Global};

/// How many kinds of record there are.
const KINDS: u32 = 7;

/// The record at a number of a sample: its kind, the number itself, and a key below 1,000, as JSON.
#[tactic(auto, unfolding(crate::specs::Sample::sample_text))]
pub fn sample_record(alloc: Global, number: u32) -> Result<Text, AllocError>
    ensures { IfOk result (λ text. text ≡ sample_text number) }
{
    let kind = number % KINDS;
    let key = key_of(number);
    let mut text = String::new(alloc);
    write!(text, "{{\"type\":\"T{kind}\",\"n\":{number},\"k\":{key}}}")?;
    Ok(Text::from_string(text))
}

/// The key of a number: multiplicative hashing with a factor near the golden ratio of 2^32 (Knuth, "The Art of Computer
/// Programming", volume 3, section 6.4), and of that what is left past whole thousands.
fn key_of(number: u32) -> u32
    ensures { result ≡ sample_key number }
{
    number.wrapping_mul(2_654_435_761) % 1_000
}
