ghost use Rattle.std.specs.Prelude.{◌≡◌, ◌+◌, ◌<◌, ◌≤◌, ◌^◌, MatchBool, MatchOption};

/// The steps that were taken, those that are left, and the beats.
#[derive(Clone, Copy)]
pub struct Clock {
    pub steps: u64,
    pub left: u64,
    pub beats: u64,
    ghost fits: { steps + left < 2 ^ 64 },
    ghost beats_fit: { beats ≤ steps },
}

impl Clock {
    /// The clock of a run whose first step is taken, if the budget has one.
    pub fn begin(budget: u64) -> Option<Clock>
        ensures { MatchOption result (budget ≡ 0)
            (λ c. (budget ≡ c.left + 1) × (c.steps ≡ 1) × (c.beats ≡ 0)) }
    {
        if budget == 0 {
            return None;
        }
        Some(Clock {
            steps: 1,
            left: budget - 1,
            beats: 0,
        })
    }

    /// Takes so many steps, if they are left.
    pub fn take(&mut self, count: u64) -> bool
        ensures { MatchBool result
            ((self.old.left ≡ self.new.left + count)
            × (self.new.steps ≡ self.old.steps + count)
            × (self.new.beats ≡ self.old.beats))
            ((self.old.left < count) × (self.new ≡ self.old)) }
    {
        if self.left < count {
            return false;
        }
        self.left -= count;
        self.steps += count;
        true
    }

    /// Takes the steps that are left.
    pub fn run_out(&mut self)
        ensures steps { self.new.steps ≡ self.old.steps + self.old.left }
        ensures left { self.new.left ≡ 0 }
        ensures beats { self.new.beats ≡ self.old.beats }
    {
        self.steps += self.left;
        self.left = 0;
    }

    /// Counts a beat, after a step that was taken for it.
    pub fn beat(&mut self)
        requires { self.old.beats < self.old.steps }
        ensures beats { self.new.beats ≡ self.old.beats + 1 }
        ensures steps { self.new.steps ≡ self.old.steps }
        ensures left { self.new.left ≡ self.old.left }
    {
        self.beats += 1;
    }
}
