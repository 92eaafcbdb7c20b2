//! How much of the limits of depth and nesting is left.

ghost use Rattle.std.specs.Prelude.{◌≡◌};
ghost use Rattle.js_tree.specs.Plain.{expr};
ghost use Rattle.js_parser.specs.Rooms as spec;
ghost use Rattle.js_parser.specs.View as view;

use crate::fits::expr_fits;
use crate::form::Limits;
use js_tree::{Boxed, Expr};

/// How deep a tree may be, and how many functions may stand in one another in it.
#[derive(Clone, Copy)]
pub struct Room {
    pub depth: u32,
    pub nesting: u32,
}

impl Room {
    /// The room that the limits leave for a script.
    pub fn of_limits(limits: &Limits) -> Room
        ensures { view.room result ≡ spec.of_limits limits.now }
    {
        Room {
            depth: limits.depth,
            nesting: limits.nesting,
        }
    }

    /// Whether there is room for a node at all.
    pub fn fits_node(self) -> bool
        ensures { result ≡ spec.fits_node (view.room self) }
    {
        self.depth >= 1
    }

    /// Whether there is room for a node with this expression directly inside it.
    pub fn fits_around(self, inner: &Boxed<Expr>) -> bool
        ensures { result ≡ spec.fits_around (view.room self) (expr inner.now) }
    {
        self.depth >= 1 && expr_fits(inner.get(), self.depth - 1)
    }

    /// Whether there is room for a function.
    pub fn fits_function(self) -> bool
        ensures { result ≡ spec.fits_function (view.room self) }
    {
        self.depth >= 1 && self.nesting >= 1
    }

    /// The room directly inside a node.
    pub fn inside(self) -> Room
        ensures { view.room result ≡ spec.inside (view.room self) }
    {
        Room {
            depth: self.depth.saturating_sub(1),
            nesting: self.nesting,
        }
    }

    /// The room directly inside a function.
    pub fn in_function(self) -> Room
        ensures { view.room result ≡ spec.in_function (view.room self) }
    {
        Room {
            depth: self.depth.saturating_sub(1),
            nesting: self.nesting.saturating_sub(1),
        }
    }
}
