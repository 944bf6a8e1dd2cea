//! A claim, and what it became.

ghost use Rattle.std.specs.Prelude.{◌<◌, ◌≤◌};
ghost use Rattle.fish_claim.specs.Claims.{IsClaimed};
ghost use Rattle.fish_rule.specs.Passes.{IsPassOf, view};
ghost use Rattle.fish_rule.specs.SpaceSteps.{CanClaimLines};

use fish_layout::void_header;
use fish_rule::{Kind, Log, Pass, Shut, claim_lines, is_shut, kind_in, publish_region, store_word};

/// What a claim became.
#[derive(Clone, Copy, Debug, PartialEq, Eq)]
pub enum Claimed {
    /// Lines for a record, which is in flight.
    Placed {
        /// Its number.
        number: u32,
        /// Its first line.
        line: u64,
    },
    /// Padding, since the lines cross the end of a page. It is published.
    Void {
        /// Its number.
        number: u32,
    },
    /// Nothing, since the lines end past the log's end. The pass is shut.
    Overflow {
        /// The claim.
        shut: Shut,
    },
}

/// Claims so many lines, and publishes at once what can be no record.
pub fn claim(log: &Log, pass: &mut Pass, lines: u64) -> Claimed
    requires pass { IsPassOf log.now pass.old }
    requires lines { (0 < lines) × (lines ≤ 18625) }
    requires view { CanClaimLines (view pass.old) }
    ensures pass { IsPassOf log.now pass.new }
    ensures claimed { IsClaimed (view pass.old) lines result (view pass.new) }
{
    let region = claim_lines(log, pass, lines);
    match kind_in(log, &region) {
        Kind::Stored => Claimed::Placed {
            number: region.number as u32,
            line: region.line,
        },
        Kind::Void => {
            store_word(log, pass, &region, 0, void_header(lines));
            publish_region(log, pass, &region);
            Claimed::Void {
                number: region.number as u32,
            }
        }
        Kind::Mark => {
            publish_region(log, pass, &region);
            let Some(shut) = is_shut(pass) else {
                unreachable!()
            };
            Claimed::Overflow { shut }
        }
    }
}
