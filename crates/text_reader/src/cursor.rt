ghost use Rattle.std.specs.Prelude.{◌≡◌, ◌+◌, ◌≤◌, ℕ, Bool, IfErr, OnErr, Some, length};
ghost use Rattle.std.specs.List.{prefix_len};
ghost use Rattle.text_reader.specs.Reader as reader;
ghost use Rattle.text_reader.specs.Gives.{Gives, Eats, Decides};

use crate::numeral;
use std::alloc::{AllocError, AllocFailed};
use std::marker::Model;

/// Why nothing is read.
#[derive(Clone, Copy, Debug, PartialEq, Eq)]
pub enum Refusal {
    /// The text does not go on so.
    NotOfForm,
    OutOfMemory,
}

impl From<AllocError> for Refusal {
    ghost use Rattle.text_reader.specs.declared.cursor.Refusal.TheVariants.{OutOfMemory};

    ghost from_gives = { λ _ e. e ≡ OutOfMemory };

    fn from(_: AllocError) -> Refusal {
        Refusal::OutOfMemory
    }
}

impl<T: Drop> From<AllocFailed<T>> for Refusal {
    ghost use Rattle.text_reader.specs.declared.cursor.Refusal.TheVariants.{OutOfMemory};

    ghost from_gives = { λ _ e. e ≡ OutOfMemory };

    fn from(_: AllocFailed<T>) -> Refusal {
        Refusal::OutOfMemory
    }
}

/// The bytes that are still to be read.
#[derive(Drop)]
pub struct Cursor<'a> {
    rest: &'a [u8],
}

impl<'a> Model for Cursor<'a> {
    ghost use Rattle.std.specs.Prelude.{List, ℕ};

    ghost Value = { List ℕ };

    ghost view = { λ cursor. cursor.rest.now };
}

/// How many bytes come first that pass.
fn front_length<F: Fn(u8) -> bool>(bytes: &[u8], passes: F) -> usize
    requires { F.IsAlwaysCallable passes }
    ensures within { result ≤ length bytes.now }
    ensures is { (test : ℕ → Bool) → Decides (F.post passes) test
        → result ≡ prefix_len test bytes.now }
{
    for (i, byte) in bytes.iter().enumerate() {
        if !passes(*byte) {
            return i;
        }
    }
    bytes.len()
}

impl<'a> Cursor<'a> {
    /// A cursor at the front of these bytes.
    pub fn new(rest: &'a [u8]) -> Cursor<'a>
        ensures { result ≡ rest.now }
    {
        Cursor { rest }
    }

    /// One more than there are bytes left: more turns than any list in them takes.
    pub(crate) fn turns(&self) -> usize
        ensures { result ≡ length self.now + 1 }
    {
        self.rest.len() + 1
    }

    /// Takes these bytes, if they come next.
    #[tactic(auto, unfolding(crate::specs::Reader::skip))]
    pub fn eat(&mut self, front: &[u8]) -> bool
        ensures { Eats (reader.skip front.now self.old) result self.old self.new }
    {
        match self.rest.strip_prefix(front) {
            Some(rest) => {
                self.rest = rest;
                true
            }
            None => false,
        }
    }

    /// Whether no byte is left.
    #[tactic(auto, unfolding(crate::specs::Reader::ended))]
    pub fn is_at_end(&self) -> bool
        ensures { Eats (reader.ended self.now) result self.now self.now }
    {
        self.rest.is_empty()
    }

    /// Takes these bytes, which have to come next. Where it refuses, it takes nothing.
    pub fn skip(&mut self, front: &[u8]) -> Result<(), Refusal>
        ensures gives { Gives (reader.skip front.now self.old) result self.new }
        ensures stays { OnErr result (self.new ≡ self.old) }
        ensures needs_no_memory { IfErr result (λ e. e ≡ Refusal.NotOfForm) }
    {
        if self.eat(front) {
            Ok(())
        } else {
            Err(Refusal::NotOfForm)
        }
    }

    /// Takes one byte, which has to pass. Where it refuses, it takes nothing.
    #[tactic(auto, unfolding(crate::specs::Reader::one))]
    pub fn one<F: Fn(u8) -> bool>(&mut self, passes: F) -> Result<u8, Refusal>
        requires { F.IsAlwaysCallable passes }
        ensures gives { (test : ℕ → Bool) → Decides (F.post passes) test
            → Gives (reader.one test self.old) result self.new }
        ensures stays { OnErr result (self.new ≡ self.old) }
        ensures needs_no_memory { IfErr result (λ e. e ≡ Refusal.NotOfForm) }
    {
        if let [first, rest @ ..] = self.rest {
            if passes(*first) {
                self.rest = rest;
                return Ok(*first);
            }
        }
        Err(Refusal::NotOfForm)
    }

    /// Takes the longest front of bytes that pass.
    #[tactic(auto, unfolding(crate::specs::Reader::run))]
    pub fn run<F: Fn(u8) -> bool>(&mut self, passes: F) -> &'a [u8]
        requires { F.IsAlwaysCallable passes }
        ensures { (test : ℕ → Bool) → Decides (F.post passes) test
            → reader.run test self.old ≡ Some (result.now, self.new) }
    {
        let (front, rest) = self.rest.split_at(front_length(self.rest, passes));
        self.rest = rest;
        front
    }

    /// Takes a decimal number below 2^32 with no zero in front of other digits. Where it refuses,
    /// the digits are taken too.
    #[tactic(auto, unfolding(crate::specs::Reader::decimal))]
    pub fn decimal(&mut self) -> Result<u32, Refusal>
        ensures gives { Gives (reader.decimal self.old) result self.new }
        ensures leaves { self.new ≡ reader.behind_digits self.old }
        ensures needs_no_memory { IfErr result (λ e. e ≡ Refusal.NotOfForm) }
    {
        let digits = self.run(numeral::is_digit);
        numeral::number_of(digits).ok_or(Refusal::NotOfForm)
    }
}
