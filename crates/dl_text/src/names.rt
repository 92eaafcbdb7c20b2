ghost use Rattle.std.specs.Prelude.{◌≡◌, [], ◌∷◌, ◌++◌, OnOk, OnErr};

use crate::list::{Listed, TryCopy};
use crate::shared::Shared;
use crate::units::Units;
use std::alloc::{AllocError, Global};
use std::marker::Model;

/// A list of names, such as the formals of a function. A copy takes constant time.
#[derive(Debug, Drop)]
pub struct Names {
    names: Shared<Units>,
}

impl Model for Names {
    ghost use Rattle.std.specs.Prelude.{List, ℕ};

    ghost Value = { List (List ℕ) };

    ghost view = { λ list. list.names };
}

impl Names {
    /// The empty list, which takes no memory.
    pub fn new(alloc: Global) -> Names
        ensures { result ≡ [] }
    {
        Names {
            names: Shared::new(alloc),
        }
    }

    /// Adds a name at the end.
    pub fn push(&mut self, name: Units) -> Result<(), AllocError>
        ensures ok { OnOk result (self.new ≡ self.old ++ name ∷ []) }
        ensures err { OnErr result (self.new ≡ self.old) }
    {
        self.names.push(name)
    }
}

impl Listed<Units> for Names {
    ghost listed = { λ list. list };

    fn items(&self) -> &[Units] {
        self.names.as_slice()
    }
}

impl TryCopy for Names {
    fn copy(&self, _: Global) -> Result<Names, AllocError> {
        let names = self.names.share()?;
        Ok(Names { names })
    }
}
