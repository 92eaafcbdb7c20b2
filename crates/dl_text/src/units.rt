ghost use Rattle.std.specs.Prelude.{◌≡◌, ◌<◌, [], ◌∷◌, ◌++◌, IfOk, OnOk, OnErr};
ghost use Rattle.std.specs.Char.Escape.{encode_utf16};
ghost use Rattle.std.specs.Prelude.{nat_eq};
ghost use Rattle.std.specs.Cmp.{partial_equiv_from_equiv};
ghost use Rattle.std.specs.Cmp.Lexicographic.{pointwise, nat_list_eq_equiv};
ghost use Rattle.std.specs.Hash as fed;
ghost use Rattle.std.specs.Hash.{items_Alike};
ghost use Rattle.std.specs.Cmp.Rules.{hashing};
ghost use Rattle.std.proofs.Common.{rules};

use crate::list::TryCopy;
use crate::shared::Shared;
use std::alloc::{AllocError, Global};
use std::hash::{Hash, Hasher};
use std::marker::Model;
use std::mem::size_of;

/// A text as a script sees it: a list of UTF-16 units (ES3 section 6). A copy takes constant time.
#[derive(Debug, Drop)]
pub struct Units {
    units: Shared<u16>,
}

// The trees and the values of a script hold many.
const _: () = prove!(size_of::<Units>() <= 16);

impl Model for Units {
    ghost use Rattle.std.specs.Prelude.{List, ℕ};

    ghost Value = { List ℕ };

    ghost view = { λ text. text.units };
}

impl Units {
    /// The empty text, which takes no memory.
    pub fn new(alloc: Global) -> Units
        ensures { result ≡ [] }
    {
        Units {
            units: Shared::new(alloc),
        }
    }

    /// Adds a unit at the end.
    pub fn push(&mut self, unit: u16) -> Result<(), AllocError>
        ensures ok { OnOk result (self.new ≡ self.old ++ unit ∷ []) }
        ensures err { OnErr result (self.new ≡ self.old) }
    {
        self.units.push(unit)
    }

    /// Adds the one or two units of a code point at the end; a surrogate is its own. A refusal may
    /// leave the first of two.
    pub fn push_code_point(&mut self, code_point: u32) -> Result<(), AllocError>
        requires { code_point < 0x11_0000 }
        ensures { OnOk result (self.new ≡ self.old ++ encode_utf16 code_point) }
    {
        if code_point < 0x1_0000 {
            return self.push(code_point as u16);
        }
        self.push(0xd800 + ((code_point - 0x1_0000) / 0x400) as u16)?;
        self.push(0xdc00 + ((code_point - 0x1_0000) % 0x400) as u16)
    }

    /// A text and behind it another, in a time that is linear in both.
    pub fn joined(alloc: Global, first: &Units, second: &Units) -> Result<Units, AllocError>
        ensures { IfOk result (λ text. text ≡ first.now ++ second.now) }
    {
        let units = Shared::joined(alloc, first.items(), second.items())?;
        Ok(Units { units })
    }

    /// The units in order.
    pub fn items(&self) -> &[u16]
        ensures { result.now ≡ self.now }
    {
        self.units.as_slice()
    }
}

impl TryCopy for Units {
    fn copy(&self, _: Global) -> Result<Units, AllocError> {
        let units = self.units.share()?;
        Ok(Units { units })
    }
}

/// Two are equal where they have the same units.
impl PartialEq for Units {
    ghost eq = { λ a b. pointwise nat_eq a b };

    ghost laws = { partial_equiv_from_equiv nat_list_eq_equiv };

    fn eq(&self, other: &Units) -> bool {
        self.items() == other.items()
    }
}

impl Eq for Units {
    ghost laws = { nat_list_eq_equiv };
}

impl Hash for Units {
    ghost hash_input = { fed.slice fed.u16 };

    ghost respects_eq = { (items_Alike {F = fed.u16} (record { fed = Prim.search (hashing, rules) })).fed };

    fn hash<H: Hasher>(&self, state: &mut H) {
        self.items().hash(state);
    }
}
