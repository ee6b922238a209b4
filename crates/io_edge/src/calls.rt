// Calls that are counted from 1, some of which are to fail.
ghost use Rattle.std.specs.Prelude.{◌≡◌, ◌+◌, ◌^◌, ◌<◌, ◌↔◌, IsTrue, IfOk, Contains};
ghost use Rattle.io_edge.specs.InMemory.{FailsNext, after_call, new_plan};

use std::alloc::{AllocError, Global};
use std::marker::Model;

/// The calls of an object in memory, and the numbers of those that are to fail.
#[derive(Drop)]
pub(crate) struct Calls {
    fails: Vec<u64>,
    made: u64,
}

impl Model for Calls {
    ghost use Rattle.io_edge.specs.InMemory.{CallPlan};

    ghost Value = { CallPlan };

    ghost view = { λ c. record { fails = c.fails.items; made = c.made } };
}

impl Calls {
    /// No call so far.
    pub(crate) fn new(alloc: Global, fails: &[u64]) -> Result<Calls, AllocError>
        ensures { IfOk result (λ calls. calls ≡ new_plan fails.now) }
    {
        Ok(Calls {
            fails: Vec::from_slice(alloc, fails)?,
            made: 0,
        })
    }

    /// Counts one more call, and says whether it is to fail.
    pub(crate) fn next_fails(&mut self) -> bool
        ensures value { IsTrue result ↔ FailsNext self.old }
        ensures counted { self.new ≡ after_call self.old }
        ensures numbered { IsTrue result → self.new.made ≡ self.old.made + 1 }
    {
        let is_to_fail = is_listed(self.fails.as_slice(), self.made);
        self.made = self.made.saturating_add(1);
        is_to_fail
    }
}

/// Whether the list has the number after `made`. A number past the last of 64 bits is in no list.
fn is_listed(numbers: &[u64], made: u64) -> bool
    ensures value { IsTrue result ↔ Contains numbers.now (made + 1) }
    ensures fits { IsTrue result → made + 1 < 2 ^ 64 }
{
    match made.checked_add(1) {
        Some(number) => numbers.contains(&number),
        None => false,
    }
}
