use crate::reason::Reason;
use std::marker::Model;

const LIMIT: u64 = 1 << 53;

/// A whole number of at most 53 bits: from -(2^53 - 1) to 2^53 - 1.
#[derive(Clone, Copy, Debug, PartialEq, Eq)]
pub struct WholeNumber {
    value: i64,
}

impl Model for WholeNumber {
    ghost use Rattle.std.specs.Prelude.{ℤ};
    ghost use Rattle.js_values.specs.Range.{IsInRange};

    ghost Value = { ℤ };

    ghost view = { λ number. number.value };

    ghost invariant = { λ number. IsInRange number.value };

    ghost inverse = { λ z. record { value = z } };
}

impl WholeNumber {
    ghost use Rattle.std.specs.Prelude.{◌≡◌};
    ghost use Rattle.js_values.specs.Range.{IsInRange};

    /// The whole number of this value.
    pub fn new(value: i64) -> WholeNumber
        requires { IsInRange value }
        ensures { result ≡ value }
    {
        WholeNumber { value }
    }

    /// The value.
    pub fn get(self) -> i64
        ensures value { result ≡ self }
        ensures in_range { IsInRange result }
    {
        self.value
    }
}

/// A number of a script (ES3 8.5): NaN or a whole number of at most 53 bits. Minus zero is 0.
#[derive(Clone, Copy, Debug, PartialEq, Eq)]
pub enum Num {
    NaN,
    Whole(WholeNumber),
}

impl Num {
    ghost use Rattle.std.specs.Prelude.{◌≡◌};
    ghost use Rattle.std.specs.Prelude.{MatchOption};
    ghost use Rattle.js_values.specs.Numbers.{whole_or_stop};
    ghost use Rattle.js_values.specs.Range.{IsInRange};

    /// The whole number that it is, or None for NaN.
    pub fn value(self) -> Option<i64>
        ensures { MatchOption result (self ≡ Num.NaN)
            (λ z. (self ≡ Num.Whole z) × IsInRange z) }
    {
        match self {
            Num::NaN => None,
            Num::Whole(number) => Some(number.get()),
        }
    }

    /// The whole number of this value, or `TooLarge` where it has more than 53 bits.
    pub fn whole(value: i64) -> Result<Num, Reason>
        ensures { result ≡ whole_or_stop value }
    {
        if value.unsigned_abs() < LIMIT {
            Ok(Num::Whole(WholeNumber::new(value)))
        } else {
            Err(Reason::TooLarge)
        }
    }
}

impl From<u32> for Num {
    ghost use Rattle.std.specs.Prelude.{◌≡◌, pos};
    ghost use Rattle.js_values.specs.declared.number.Num.TheVariants.{Whole};

    ghost from_gives = { λ value number. number ≡ Whole (pos value) };

    fn from(value: u32) -> Num {
        Num::Whole(WholeNumber::new(i64::from(value)))
    }
}

impl From<i32> for Num {
    ghost use Rattle.std.specs.Prelude.{◌≡◌};
    ghost use Rattle.js_values.specs.declared.number.Num.TheVariants.{Whole};

    ghost from_gives = { λ value number. number ≡ Whole value };

    fn from(value: i32) -> Num {
        Num::Whole(WholeNumber::new(i64::from(value)))
    }
}
