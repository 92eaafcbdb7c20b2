//! One statement or function declaration of a script or a function (ES3 section 14).

ghost use Rattle.std.specs.Prelude.{◌≤◌, ◌<◌, length};
ghost use Rattle.js_parser.specs.Elements as pieces;
ghost use Rattle.js_parser.specs.Nests as nests;
ghost use Rattle.js_parser.specs.Reads.{Reads};
ghost use Rattle.js_parser.specs.View as view;
ghost use Rattle.js_tree.specs.Plain.{stmt};

use crate::build;
use crate::context::Context;
use crate::declarators::binding;
use crate::form::Form;
use crate::part::Part;
use crate::rooms::Room;
use crate::rules::Rules;
use crate::statements::Statements;
use crate::stop::Stop;
use crate::tokens::Tokens;
use dl_text::Units;
use js_tree::{Boxed, Expr, Func, Stmt};
use std::alloc::Global;

impl<
    E: Fn(Global, &mut Tokens<'_>, Form, Room, bool, Part) -> Result<Boxed<Expr>, Stop>,
    B: Fn(Global, &mut Tokens<'_>, Form, Room, Option<Units>) -> Result<Boxed<Func>, Stop>,
> Rules<E, B> {
    /// A function declaration, behind its word `function` (ES3 section 13).
    pub fn declaration(&self, tokens: &mut Tokens<'_>, room: Room) -> Result<Boxed<Stmt>, Stop>
        requires functions { nests.Functions self.now.form self.now.bound
            (B.pre self.now.function) (B.post self.now.function) }
        requires within { length tokens.old < self.now.bound }
        ensures reads { Reads self.now.form stmt
            (pieces.declared_function self.now.form (view.room room)) result tokens.old tokens.new }
        ensures shorter { length tokens.new ≤ length tokens.old }
    {
        if !room.fits_function() {
            return Err(Stop::Deep);
        }
        let name = binding(self.alloc, self.form, tokens)?;
        let function = self.function(tokens, room, Some(name))?;
        build::declaration(self.alloc, function)
    }
}

impl<
    E: Fn(Global, &mut Tokens<'_>, Form, Room, bool, Part) -> Result<Boxed<Expr>, Stop>,
    B: Fn(Global, &mut Tokens<'_>, Form, Room, Option<Units>) -> Result<Boxed<Func>, Stop>,
    S: Fn(Global, &mut Tokens<'_>, Form, Room, &Context) -> Result<Boxed<Stmt>, Stop>,
> Statements<E, B, S> {
    /// A statement or a function declaration, where a token is left (ES3 section 14).
    pub fn element(
        &self,
        tokens: &mut Tokens<'_>,
        room: Room,
        context: &Context,
    ) -> Result<Boxed<Stmt>, Stop>
        requires functions { nests.Functions self.now.rules.form self.now.rules.bound
            (B.pre self.now.rules.function) (B.post self.now.rules.function) }
        requires statements { nests.Statements self.now.rules.form self.now.rules.bound
            (S.pre self.now.statement) (S.post self.now.statement) }
        requires within { length tokens.old < self.now.rules.bound }
        requires some { 0 < length tokens.old }
        ensures reads { Reads self.now.rules.form stmt
            (pieces.element self.now.rules.form (view.room room) (view.context context.now)) result
            tokens.old tokens.new }
        ensures shorter { length tokens.new ≤ length tokens.old }
    {
        if tokens.at_function() {
            tokens.take();
            return self.rules.declaration(tokens, room);
        }
        self.nested(tokens, room, context)
    }
}
