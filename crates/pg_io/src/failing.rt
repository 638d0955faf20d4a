//! Which calls of a fake are to fail.

ghost use Rattle.std.specs.Prelude.{◌≡◌};
ghost use Rattle.pg_io.specs.Plan as spec;
ghost use Rattle.pg_io.specs.Plan.{Plan};

use std::marker::Model;

/// What is told of a fake: how many calls it has had, and which fail.
pub trait Planned {
    ghost plan: { Self → Plan };
}

/// Counts calls, and knows the numbers, from 1, of those that are to fail.
#[derive(Debug, Drop)]
pub struct Failing {
    calls: u64,
    numbers: Vec<u64>,
}

impl Model for Failing {
    ghost use Rattle.pg_io.specs.Plan.{Plan};

    ghost Value = { Plan };

    ghost view = { λ failing. record { calls = failing.calls; numbers = failing.numbers.items } };
}

impl Failing {
    pub fn of(numbers: Vec<u64>) -> Failing
        ensures { result ≡ spec.fresh numbers.items }
    {
        Failing { calls: 0, numbers }
    }

    /// Counts one more call, and says whether it is to fail.
    pub fn fails_next(&mut self) -> bool
        ensures counted { self.new ≡ spec.after_call self.old }
        ensures listed { result ≡ spec.fails_next self.old }
    {
        self.calls = self.calls.saturating_add(1);
        self.numbers.contains(&self.calls)
    }
}
