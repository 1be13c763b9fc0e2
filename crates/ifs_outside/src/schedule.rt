//! Calls that are to fail.

ghost use Rattle.std.specs.Prelude.{◌≡◌};
ghost use Rattle.ifs_outside.specs.Schedule.{no_calls, is_to_fail, after_call};

use std::marker::Model;

/// The number of the next call, counted from 0, and the numbers of the calls that are to fail. The number
/// stands still at 2^64 - 1.
#[derive(Debug, Drop)]
pub(crate) struct Schedule {
    next: u64,
    failing: Vec<u64>,
}

impl Model for Schedule {
    ghost use Rattle.ifs_outside.specs.Schedule.{Calls};

    ghost Value = { Calls };

    ghost view = { λ schedule. record { next = schedule.next; failing = schedule.failing.items } };
}

impl Schedule {
    /// No call was made yet.
    pub(crate) fn new(failing: Vec<u64>) -> Schedule
        ensures { result ≡ no_calls failing.items }
    {
        Schedule { next: 0, failing }
    }

    /// Begins a call, and says whether it is to fail.
    pub(crate) fn begin(&mut self) -> bool
        ensures fails { result ≡ is_to_fail self.old }
        ensures counted { self.new ≡ after_call self.old }
    {
        let fails = self.failing.contains(&self.next);
        self.next = self.next.saturating_add(1);
        fails
    }
}
