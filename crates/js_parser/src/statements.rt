//! What the rules of statements stand on.

ghost use Rattle.std.specs.Prelude.{◌≤◌, ◌<◌, length};
ghost use Rattle.js_parser.specs.Machine as rule;
ghost use Rattle.js_parser.specs.Nests as nests;
ghost use Rattle.js_parser.specs.Reads.{Reads};
ghost use Rattle.js_parser.specs.View as view;
ghost use Rattle.js_tree.specs.Plain.{stmt};

use crate::context::Context;
use crate::form::Form;
use crate::part::Part;
use crate::rooms::Room;
use crate::rules::Rules;
use crate::stop::Stop;
use crate::tokens::Tokens;
use dl_text::Units;
use js_tree::{Boxed, Expr, Func, Stmt};
use std::alloc::Global;

/// The rules of expressions, and what reads a nested statement.
#[derive(Clone, Copy)]
pub struct Statements<E, B, S> {
    pub rules: Rules<E, B>,
    /// Reads a statement.
    pub statement: S,
}

impl<
    E: Fn(Global, &mut Tokens<'_>, Form, Room, bool, Part) -> Result<Boxed<Expr>, Stop>,
    B: Fn(Global, &mut Tokens<'_>, Form, Room, Option<Units>) -> Result<Boxed<Func>, Stop>,
    S: Fn(Global, &mut Tokens<'_>, Form, Room, &Context) -> Result<Boxed<Stmt>, Stop>,
> Statements<E, B, S> {
    /// A statement, of fewer tokens.
    pub fn nested(
        &self,
        tokens: &mut Tokens<'_>,
        room: Room,
        context: &Context,
    ) -> Result<Boxed<Stmt>, Stop>
        requires statements { nests.Statements self.now.rules.form self.now.rules.bound
            (S.pre self.now.statement) (S.post self.now.statement) }
        requires within { length tokens.old < self.now.rules.bound }
        ensures reads { Reads self.now.rules.form stmt
            (rule.statement (view.room room) (view.context context.now)) result tokens.old
            tokens.new }
        ensures shorter { length tokens.new ≤ length tokens.old }
    {
        (self.statement)(self.rules.alloc, tokens, self.rules.form, room, context)
    }
}
