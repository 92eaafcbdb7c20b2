//! Statements that leave others (ES3 12.7 to 12.9 and 12.13).

ghost use Rattle.std.specs.Prelude.{◌≡◌, ◌≤◌, ◌<◌, ◌&&◌, length};
ghost use Rattle.js_parser.specs.Machine as rule;
ghost use Rattle.js_parser.specs.Names as spec;
ghost use Rattle.js_parser.specs.Nests as nests;
ghost use Rattle.js_parser.specs.Reads.{Reads};
ghost use Rattle.js_parser.specs.StatementKinds as kinds;
ghost use Rattle.js_parser.specs.View as view;
ghost use Rattle.js_tree.specs.Plain.{stmt};

use crate::context::Context;
use crate::form::Form;
use crate::names::{is_among, is_reference};
use crate::part::Part;
use crate::rooms::Room;
use crate::statement_nodes;
use crate::statements::Statements;
use crate::stop::Stop;
use crate::tokens::Tokens;
use dl_text::{Listed, Names, Units};
use js_tree::{Boxed, Expr, Func, Stmt};
use std::alloc::Global;

/// Whether a jump to this label may stand where there are these (ES3 12.7 and 12.8).
fn may_jump(form: Form, names: &Names, name: &Units) -> bool
    ensures { result ≡ (spec.is_reference form name.now && spec.is_among name.now names.now) }
{
    is_reference(form, name) && is_among(name, names.items())
}

impl<
    E: Fn(Global, &mut Tokens<'_>, Form, Room, bool, Part) -> Result<Boxed<Expr>, Stop>,
    B: Fn(Global, &mut Tokens<'_>, Form, Room, Option<Units>) -> Result<Boxed<Func>, Stop>,
    S: Fn(Global, &mut Tokens<'_>, Form, Room, &Context) -> Result<Boxed<Stmt>, Stop>,
> Statements<E, B, S> {
    /// A jump to this label, which is the next token (ES3 12.7 and 12.8).
    fn jump_to(
        &self,
        tokens: &mut Tokens<'_>,
        names: &Names,
        name: &Units,
    ) -> Result<Option<Units>, Stop>
        ensures reads { Reads self.now.rules.form (λ label. label)
            (kinds.jump_to self.now.rules.form names.now name.now) result tokens.old tokens.new }
        ensures shorter { length tokens.new ≤ length tokens.old }
    {
        if !may_jump(self.rules.form, names, name) {
            return Err(Stop::Broken);
        }
        tokens.take();
        tokens.ended()?;
        statement_nodes::label(self.rules.alloc, name)
    }

    /// Behind `continue` or `break` with no label, if that may be (ES3 12.7 and 12.8).
    fn no_label(&self, tokens: &mut Tokens<'_>, may: bool) -> Result<Option<Units>, Stop>
        ensures reads { Reads self.now.rules.form (λ label. label) (kinds.no_label may) result
            tokens.old tokens.new }
        ensures shorter { length tokens.new ≤ length tokens.old }
    {
        if !may {
            return Err(Stop::Broken);
        }
        tokens.ended_at_once()?;
        Ok(None)
    }

    /// Behind `continue` or `break`: a label of these, or none, if that may be (ES3 12.7 and 12.8).
    fn jump_target(
        &self,
        tokens: &mut Tokens<'_>,
        may: bool,
        names: &Names,
    ) -> Result<Option<Units>, Stop>
        ensures reads { Reads self.now.rules.form (λ label. label)
            (kinds.jump_target self.now.rules.form may names.now) result tokens.old tokens.new }
        ensures shorter { length tokens.new ≤ length tokens.old }
    {
        let Some(name) = tokens.label_on_line() else {
            return self.no_label(tokens, may);
        };
        self.jump_to(tokens, names, name)
    }

    /// A `continue` statement (ES3 12.7).
    pub fn continue_statement(
        &self,
        tokens: &mut Tokens<'_>,
        room: Room,
        context: &Context,
    ) -> Result<Boxed<Stmt>, Stop>
        ensures reads { Reads self.now.rules.form stmt
            (kinds.continue_statement self.now.rules.form (view.room room)
            (view.context context.now)) result tokens.old tokens.new }
        ensures shorter { length tokens.new ≤ length tokens.old }
    {
        if !context.allows_continue() {
            return Err(Stop::Broken);
        }
        tokens.take();
        if !room.fits_node() {
            return Err(Stop::Deep);
        }
        let label = self.jump_target(tokens, context.in_loop, &context.loops)?;
        statement_nodes::continue_to(self.rules.alloc, label)
    }

    /// Behind `break` (ES3 12.8).
    fn break_target(
        &self,
        tokens: &mut Tokens<'_>,
        context: &Context,
    ) -> Result<Option<Units>, Stop>
        ensures reads { Reads self.now.rules.form (λ label. label)
            (kinds.break_target self.now.rules.form (view.context context.now)) result tokens.old
            tokens.new }
        ensures shorter { length tokens.new ≤ length tokens.old }
    {
        self.jump_target(tokens, context.may_break(), &context.labels)
    }

    /// A `break` statement (ES3 12.8).
    pub fn break_statement(
        &self,
        tokens: &mut Tokens<'_>,
        room: Room,
        context: &Context,
    ) -> Result<Boxed<Stmt>, Stop>
        ensures reads { Reads self.now.rules.form stmt
            (kinds.break_statement self.now.rules.form (view.room room) (view.context context.now))
            result tokens.old tokens.new }
        ensures shorter { length tokens.new ≤ length tokens.old }
    {
        if !context.allows_break() {
            return Err(Stop::Broken);
        }
        tokens.take();
        if !room.fits_node() {
            return Err(Stop::Deep);
        }
        let label = self.break_target(tokens, context)?;
        statement_nodes::break_to(self.rules.alloc, label)
    }

    /// The value of a `return` statement (ES3 12.9).
    fn return_value(&self, tokens: &mut Tokens<'_>, room: Room) -> Result<Boxed<Stmt>, Stop>
        requires expressions { nests.Expressions self.now.rules.form self.now.rules.bound
            (E.pre self.now.rules.expression) (E.post self.now.rules.expression) }
        requires within { length tokens.old < self.now.rules.bound }
        ensures reads { Reads self.now.rules.form stmt (kinds.return_value (view.room room)) result
            tokens.old tokens.new }
        ensures shorter { length tokens.new ≤ length tokens.old }
    {
        let value = self.rules.inside(tokens, room, true, Part::Comma)?;
        tokens.ended()?;
        statement_nodes::return_value(self.rules.alloc, value)
    }

    /// Behind `return` (ES3 12.9).
    fn returned(&self, tokens: &mut Tokens<'_>, room: Room) -> Result<Boxed<Stmt>, Stop>
        requires expressions { nests.Expressions self.now.rules.form self.now.rules.bound
            (E.pre self.now.rules.expression) (E.post self.now.rules.expression) }
        requires within { length tokens.old < self.now.rules.bound }
        ensures reads { Reads self.now.rules.form stmt (rule.returned (view.room room)) result
            tokens.old tokens.new }
        ensures shorter { length tokens.new ≤ length tokens.old }
    {
        if tokens.may_end() {
            return statement_nodes::return_nothing(self.rules.alloc);
        }
        if !tokens.at_semicolon() {
            return self.return_value(tokens, room);
        }
        tokens.take();
        statement_nodes::return_nothing(self.rules.alloc)
    }

    /// A `return` statement (ES3 12.9).
    pub fn return_statement(
        &self,
        tokens: &mut Tokens<'_>,
        room: Room,
        context: &Context,
    ) -> Result<Boxed<Stmt>, Stop>
        requires expressions { nests.Expressions self.now.rules.form self.now.rules.bound
            (E.pre self.now.rules.expression) (E.post self.now.rules.expression) }
        requires within { length tokens.old ≤ self.now.rules.bound }
        requires some { 0 < length tokens.old }
        ensures reads { Reads self.now.rules.form stmt
            (kinds.return_statement (view.room room) (view.context context.now)) result tokens.old
            tokens.new }
        ensures shorter { length tokens.new ≤ length tokens.old }
    {
        if !context.in_function {
            return Err(Stop::Broken);
        }
        tokens.take();
        if !room.fits_node() {
            return Err(Stop::Deep);
        }
        self.returned(tokens, room)
    }

    /// The value of a `throw` statement, on the line (ES3 12.13).
    fn thrown(&self, tokens: &mut Tokens<'_>, room: Room) -> Result<Boxed<Stmt>, Stop>
        requires expressions { nests.Expressions self.now.rules.form self.now.rules.bound
            (E.pre self.now.rules.expression) (E.post self.now.rules.expression) }
        requires within { length tokens.old < self.now.rules.bound }
        ensures reads { Reads self.now.rules.form stmt (rule.thrown (view.room room)) result
            tokens.old tokens.new }
        ensures shorter { length tokens.new ≤ length tokens.old }
    {
        if !tokens.is_on_line() {
            return Err(Stop::Broken);
        }
        let value = self.rules.inside(tokens, room, true, Part::Comma)?;
        tokens.ended()?;
        statement_nodes::throw(self.rules.alloc, value)
    }

    /// Behind `throw` (ES3 12.13).
    pub fn throw_statement(&self, tokens: &mut Tokens<'_>, room: Room) -> Result<Boxed<Stmt>, Stop>
        requires expressions { nests.Expressions self.now.rules.form self.now.rules.bound
            (E.pre self.now.rules.expression) (E.post self.now.rules.expression) }
        requires within { length tokens.old < self.now.rules.bound }
        ensures reads { Reads self.now.rules.form stmt (kinds.throw_statement (view.room room))
            result tokens.old tokens.new }
        ensures shorter { length tokens.new ≤ length tokens.old }
    {
        if !room.fits_node() {
            return Err(Stop::Deep);
        }
        self.thrown(tokens, room)
    }
}
