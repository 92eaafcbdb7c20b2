//! The count of steps.

ghost use Rattle.std.specs.Prelude.{◌≡◌, ◌≢◌, ◌+◌, ◌-◌, ◌≤◌, MatchBool};

use std::marker::Model;

/// How many steps were taken and how many are left, seen as the pair of both.
#[derive(Drop)]
pub struct Clock {
    steps: u64,
    limit: u64,
}

impl Model for Clock {
    ghost use Rattle.std.specs.Prelude.{ℕ, ◌-◌, ◌≤◌};

    ghost Value = { ℕ × ℕ };

    ghost view = { λ clock. (clock.steps, clock.limit - clock.steps) };

    ghost invariant = { λ clock. clock.steps ≤ clock.limit };
}

impl Clock {
    /// No step was taken, and none is left.
    pub fn new() -> Clock
        ensures { result ≡ (0, 0) }
    {
        Clock { steps: 0, limit: 0 }
    }

    #[inline]
    pub fn steps(&self) -> u64
        ensures { result ≡ self.now.0 }
    {
        self.steps
    }

    #[inline]
    pub fn left(&self) -> u64
        ensures { result ≡ self.now.1 }
    {
        self.limit - self.steps
    }

    /// Lets all steps together be so many; there are no fewer than were taken.
    pub fn allow(&mut self, limit: u64)
        ensures { self.new ≡ (self.old.0, limit - self.old.0) }
    {
        self.limit = limit.max(self.steps);
    }

    /// Takes a step, if one is left.
    #[inline]
    pub fn tick(&mut self) -> bool
        ensures { MatchBool result
            ((self.old.1 ≢ 0) × (self.new ≡ (self.old.0 + 1, self.old.1 - 1)))
            ((self.old.1 ≡ 0) × (self.new ≡ self.old)) }
    {
        if self.steps == self.limit {
            return false;
        }
        self.steps += 1;
        true
    }

    /// Takes so many steps.
    #[inline]
    pub fn spend(&mut self, cost: u64)
        requires { cost ≤ self.old.1 }
        ensures { self.new ≡ (self.old.0 + cost, self.old.1 - cost) }
    {
        self.steps += cost;
    }
}
