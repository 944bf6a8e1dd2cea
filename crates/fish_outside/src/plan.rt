//! Which calls of an object in memory are to fail.

ghost use Rattle.std.specs.Prelude.{◌≡◌, is_err};
ghost use Rattle.fish_outside.specs.Causes.{counted_on};
ghost use Rattle.fish_outside.specs.Memory.{plan_after_call, is_planned, new_plan};

use crate::fault::Failed;
use fish_value::Numbers64;

/// The calls that are to fail, and how many calls and faults there were.
#[derive(Debug, Drop)]
pub struct FaultPlan {
    /// The numbers of the calls that are to fail, from 0.
    pub fails: Numbers64,
    /// How many calls there were, up to the largest number of 64 bits.
    pub calls: u64,
    /// How many faults there were, up to the largest number of 64 bits.
    pub faults: u64,
}

impl FaultPlan {
    /// The plan of an object that has had no call.
    pub fn new(fails: Numbers64) -> FaultPlan
        ensures { result ≡ new_plan fails }
    {
        FaultPlan {
            fails,
            calls: 0,
            faults: 0,
        }
    }

    /// Counts a call, which fails where that is planned.
    pub fn call(&mut self) -> Result<(), Failed>
        ensures planned { is_err result ≡ is_planned self.old }
        ensures counted { self.new ≡ plan_after_call self.old (is_err result) }
    {
        let planned = self.fails.as_slice().contains(&self.calls);
        self.calls = self.calls.saturating_add(1);
        if planned {
            return Err(self.fault());
        }
        Ok(())
    }

    /// Counts a fault.
    pub fn fault(&mut self) -> Failed
        ensures { self.new ≡ record self.old { faults = counted_on self.old.faults 1 } }
    {
        self.faults = self.faults.saturating_add(1);
        Failed
    }
}
