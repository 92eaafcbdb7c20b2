//! The rules of the grammar. They take what reads nested expressions and functions as parameters,
//! so that each rule is proved by itself.

ghost use Rattle.std.specs.Prelude.{◌≤◌, ◌<◌, length};
ghost use Rattle.js_parser.specs.Nests as nests;
ghost use Rattle.js_parser.specs.Pieces as pieces;
ghost use Rattle.js_parser.specs.Reads.{Reads};
ghost use Rattle.js_parser.specs.Rooms as rooms;
ghost use Rattle.js_parser.specs.View as view;
ghost use Rattle.js_tree.specs.Plain.{expr, func};

use crate::form::Form;
use crate::part::Part;
use crate::rooms::Room;
use crate::stop::Stop;
use crate::tokens::Tokens;
use dl_text::Units;
use js_tree::{Boxed, Expr, Func};
use std::alloc::Global;

/// What the rules of expressions stand on.
#[derive(Clone, Copy)]
pub struct Rules<E, B> {
    pub alloc: Global,
    pub form: Form,
    /// More than the tokens that `expression` and `function` are given.
    pub bound: usize,
    /// Reads a part of an expression.
    pub expression: E,
    /// Reads a function behind its name.
    pub function: B,
}

impl<
    E: Fn(Global, &mut Tokens<'_>, Form, Room, bool, Part) -> Result<Boxed<Expr>, Stop>,
    B: Fn(Global, &mut Tokens<'_>, Form, Room, Option<Units>) -> Result<Boxed<Func>, Stop>,
> Rules<E, B> {
    /// A part of an expression, of fewer tokens.
    pub fn part(
        &self,
        tokens: &mut Tokens<'_>,
        room: Room,
        with_in: bool,
        part: Part,
    ) -> Result<Boxed<Expr>, Stop>
        requires expressions { nests.Expressions self.now.form self.now.bound
            (E.pre self.now.expression) (E.post self.now.expression) }
        requires within { length tokens.old < self.now.bound }
        ensures reads { Reads self.now.form expr (pieces.part_rule part (view.room room) with_in)
            result tokens.old tokens.new }
        ensures shorter { length tokens.new ≤ length tokens.old }
    {
        (self.expression)(self.alloc, tokens, self.form, room, with_in, part)
    }

    /// A part that stands directly inside a node.
    pub fn inside(
        &self,
        tokens: &mut Tokens<'_>,
        room: Room,
        with_in: bool,
        part: Part,
    ) -> Result<Boxed<Expr>, Stop>
        requires expressions { nests.Expressions self.now.form self.now.bound
            (E.pre self.now.expression) (E.post self.now.expression) }
        requires within { length tokens.old < self.now.bound }
        ensures reads { Reads self.now.form expr
            (pieces.part_rule part (rooms.inside (view.room room)) with_in) result tokens.old
            tokens.new }
        ensures shorter { length tokens.new ≤ length tokens.old }
    {
        self.part(tokens, room.inside(), with_in, part)
    }

    /// A function behind its name, in the room around it (ES3 section 13).
    pub fn function(
        &self,
        tokens: &mut Tokens<'_>,
        room: Room,
        name: Option<Units>,
    ) -> Result<Boxed<Func>, Stop>
        requires functions { nests.Functions self.now.form self.now.bound
            (B.pre self.now.function) (B.post self.now.function) }
        requires within { length tokens.old < self.now.bound }
        ensures reads { Reads self.now.form func
            (pieces.function_rule name (rooms.in_function (view.room room))) result tokens.old
            tokens.new }
        ensures shorter { length tokens.new ≤ length tokens.old }
    {
        (self.function)(self.alloc, tokens, self.form, room.in_function(), name)
    }
}
