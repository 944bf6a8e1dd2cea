//! Two passes enter the version of one log, and leave.

ghost use Rattle.std.specs.Prelude.{◌≡◌};
ghost use Rattle.fish_rule.specs.Passes.{IsPassOf, view};
ghost use Rattle.fish_rule.specs.Table.{first_view};

use crate::expecting::expect;
use crate::openings::defined_log;
use fish_epoch::{enter, leave};
use fish_rule::{Log, Pass, is_shut, join_pass, split_pass};
use std::test::Fail;

/// The versions at which two passes enter, and one of them once more.
fn versions(log: &Log, control: &mut Pass) -> [u16; 3]
    requires pass { IsPassOf log.now control.old }
    requires first { view control.old ≡ first_view log.now.key }
{
    let mut other = split_pass(log, control, 2);
    let one = enter(log, control);
    let two = enter(log, &mut other);
    leave(log, &mut other);
    leave(log, control);
    let again = enter(log, control);
    join_pass(log, control, other);
    leave(log, control);
    [one, two, again]
}

#[test]
fn two_passes_enter_and_leave(rt: HostRuntime) -> Result<(), Fail> {
    let (log, mut control) = defined_log(
        rt.alloc(),
        &["take type", "bucket n by 10", "flag when a = 1"],
    )?;
    let found = versions(&log, &mut control);
    let shut = is_shut(&control);
    drop((log, control));
    expect(&rt, "versions", &found, &[0, 0, 0]);
    expect(&rt, "shut", &shut, &None);
    Ok(())
}
