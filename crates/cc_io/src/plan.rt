ghost use Rattle.std.specs.Prelude.{◌≡◌, ◌<◌, ◌↔◌, IsTrue};
ghost use Rattle.cc_io.specs.CallPlans.{IsFailing, after_call, fresh_plan};

use std::marker::Model;

/// What a source or a sink in memory is set to do at each call.
#[derive(Drop)]
pub(crate) struct Plan {
    most: usize,
    fails: Vec<u32>,
    calls: u64,
}

impl Model for Plan {
    ghost use Rattle.std.specs.Prelude.{◌<◌};
    ghost use Rattle.cc_io.specs.CallPlans.{CallPlan};

    ghost Value = { CallPlan };

    ghost view = { λ p. record { most = p.most; fails = p.fails.items; calls = p.calls } };

    ghost invariant = { λ p. 0 < p.most };
}

impl Plan {
    /// Moves at most `most` bytes a call, and fails at the calls whose numbers stand in `fails`, counted from 1.
    pub(crate) fn new(most: usize, fails: Vec<u32>) -> Plan
        requires { 0 < most }
        ensures { result ≡ fresh_plan most fails.items }
    {
        Plan {
            most,
            fails,
            calls: 0,
        }
    }

    /// How many bytes a call moves at most.
    pub(crate) fn most(&self) -> usize
        ensures most { result ≡ self.now.most }
        ensures some { 0 < result }
    {
        self.most
    }

    /// Counts a call, and answers whether it is one of those that fail.
    pub(crate) fn begin_call(&mut self) -> bool
        ensures fails { IsTrue result ↔ IsFailing self.old }
        ensures counted { self.new ≡ after_call self.old }
    {
        // The count stops at the largest u64, which stands in no list of u32.
        self.calls = self.calls.saturating_add(1);
        let number = self.calls;
        self.fails.iter().any(|call| u64::from(*call) == number)
    }
}
