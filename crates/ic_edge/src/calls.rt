// The calls of a source or sink in memory.
ghost use Rattle.std.specs.Prelude.{◌≡◌, ◌≤◌, IsErr, ◌↔◌};
ghost use Rattle.ic_edge.specs.Causes.{HasCause};
ghost use Rattle.ic_edge.specs.Calls.{no_calls, after_call, one_failed, IsNextListed};

use crate::fails::{Failed, Fails};
use std::marker::Model;

/// Which calls are to fail, how many came and how many failed. Both counts stay at the greatest number of their type.
#[derive(Drop)]
pub(crate) struct CallCount {
    fails: Fails,
    came: u64,
    failed: u64,
}

impl Model for CallCount {
    ghost use Rattle.ic_edge.specs.Calls.{Calls};

    ghost Value = { Calls };

    ghost view = { λ c. record { fails = c.fails; came = c.came; failed = c.failed } };
}

impl CallCount {
    pub(crate) fn new(fails: Fails) -> CallCount
        ensures { result ≡ no_calls fails }
    {
        CallCount {
            fails,
            came: 0,
            failed: 0,
        }
    }

    pub(crate) fn failed(&self) -> u64
        ensures { result ≡ self.now.failed }
    {
        self.failed
    }

    /// Counts a call, and its failure if it is to fail.
    pub(crate) fn begin(&mut self) -> Result<(), Failed>
        ensures listed { IsErr result ↔ IsNextListed self.old }
        ensures calls { self.new ≡ after_call result self.old }
        ensures cause { HasCause self.old.failed self.new.failed result }
    {
        self.came = self.came.saturating_add(1);
        if self.fails.has(self.came) {
            return Err(self.fail());
        }
        Ok(())
    }

    /// Counts the failure of a call that was counted already.
    pub(crate) fn fail(&mut self) -> Failed
        ensures calls { self.new ≡ one_failed self.old }
        ensures later { self.old.failed ≤ self.new.failed }
    {
        self.failed = self.failed.saturating_add(1);
        Failed
    }
}
