//! Loops (ES3 12.6).

ghost use Rattle.std.specs.Prelude.{◌≤◌, ◌<◌, length};
ghost use Rattle.js_parser.specs.Contexts as contexts;
ghost use Rattle.js_parser.specs.ListViews as lists;
ghost use Rattle.js_parser.specs.Machine as rule;
ghost use Rattle.js_parser.specs.Nests as nests;
ghost use Rattle.js_parser.specs.Reads.{Reads};
ghost use Rattle.js_parser.specs.Rooms as rooms;
ghost use Rattle.js_parser.specs.StatementKinds as kinds;
ghost use Rattle.js_parser.specs.View as view;
ghost use Rattle.js_parser.specs.ForParts as parts;
ghost use Rattle.js_tree.specs.Plain.{expr, stmt};
ghost use Rattle.js_tree.specs.Tree as tree;

use crate::context::Context;
use crate::for_parts::{ForRest, Iteration};
use crate::form::Form;
use crate::part::Part;
use crate::rooms::Room;
use crate::statement_nodes;
use crate::statements::Statements;
use crate::stop::Stop;
use crate::targets::is_target;
use crate::tokens::Tokens;
use dl_text::Units;
use js_tree::{Boxed, Expr, Func, Stmt, VarItem};
use std::alloc::Global;

impl<
    E: Fn(Global, &mut Tokens<'_>, Form, Room, bool, Part) -> Result<Boxed<Expr>, Stop>,
    B: Fn(Global, &mut Tokens<'_>, Form, Room, Option<Units>) -> Result<Boxed<Func>, Stop>,
    S: Fn(Global, &mut Tokens<'_>, Form, Room, &Context) -> Result<Boxed<Stmt>, Stop>,
> Statements<E, B, S> {
    /// A loop's body, in the room of the body (ES3 12.6).
    fn loop_body(
        &self,
        tokens: &mut Tokens<'_>,
        room: Room,
        context: &Context,
    ) -> Result<Boxed<Stmt>, Stop>
        requires statements { nests.Statements self.now.rules.form self.now.rules.bound
            (S.pre self.now.statement) (S.post self.now.statement) }
        requires within { length tokens.old < self.now.rules.bound }
        ensures reads { Reads self.now.rules.form stmt
            (rule.statement (view.room room) (contexts.loop (view.context context.now))) result
            tokens.old tokens.new }
        ensures shorter { length tokens.new ≤ length tokens.old }
    {
        let body = context.loop_body(self.rules.alloc)?;
        self.nested(tokens, room, &body)
    }

    /// A loop's body (ES3 12.6).
    fn in_loop(
        &self,
        tokens: &mut Tokens<'_>,
        room: Room,
        context: &Context,
    ) -> Result<Boxed<Stmt>, Stop>
        requires statements { nests.Statements self.now.rules.form self.now.rules.bound
            (S.pre self.now.statement) (S.post self.now.statement) }
        requires within { length tokens.old < self.now.rules.bound }
        ensures reads { Reads self.now.rules.form stmt
            (rule.statement (rooms.inside (view.room room))
            (contexts.loop (view.context context.now))) result tokens.old tokens.new }
        ensures shorter { length tokens.new ≤ length tokens.old }
    {
        self.loop_body(tokens, room.inside(), context)
    }

    /// Behind the body of a `do` statement (ES3 12.6.1).
    fn do_test(&self, tokens: &mut Tokens<'_>, room: Room) -> Result<Boxed<Expr>, Stop>
        requires expressions { nests.Expressions self.now.rules.form self.now.rules.bound
            (E.pre self.now.rules.expression) (E.post self.now.rules.expression) }
        requires within { length tokens.old < self.now.rules.bound }
        ensures reads { Reads self.now.rules.form expr (kinds.do_test (view.room room)) result
            tokens.old tokens.new }
        ensures shorter { length tokens.new ≤ length tokens.old }
    {
        tokens.while_word()?;
        let test = self.condition(tokens, room)?;
        tokens.ended()?;
        Ok(test)
    }

    /// Behind `do` (ES3 12.6.1).
    pub fn do_statement(
        &self,
        tokens: &mut Tokens<'_>,
        room: Room,
        context: &Context,
    ) -> Result<Boxed<Stmt>, Stop>
        requires expressions { nests.Expressions self.now.rules.form self.now.rules.bound
            (E.pre self.now.rules.expression) (E.post self.now.rules.expression) }
        requires statements { nests.Statements self.now.rules.form self.now.rules.bound
            (S.pre self.now.statement) (S.post self.now.statement) }
        requires within { length tokens.old < self.now.rules.bound }
        ensures reads { Reads self.now.rules.form stmt
            (kinds.do_loop (view.room room) (view.context context.now)) result tokens.old
            tokens.new }
        ensures shorter { length tokens.new ≤ length tokens.old }
    {
        if !room.fits_node() {
            return Err(Stop::Deep);
        }
        let body = self.in_loop(tokens, room, context)?;
        let test = self.do_test(tokens, room)?;
        statement_nodes::do_while(self.rules.alloc, body, test)
    }

    /// Behind `while` (ES3 12.6.2).
    pub fn while_statement(
        &self,
        tokens: &mut Tokens<'_>,
        room: Room,
        context: &Context,
    ) -> Result<Boxed<Stmt>, Stop>
        requires expressions { nests.Expressions self.now.rules.form self.now.rules.bound
            (E.pre self.now.rules.expression) (E.post self.now.rules.expression) }
        requires statements { nests.Statements self.now.rules.form self.now.rules.bound
            (S.pre self.now.statement) (S.post self.now.statement) }
        requires within { length tokens.old < self.now.rules.bound }
        ensures reads { Reads self.now.rules.form stmt
            (kinds.while_loop (view.room room) (view.context context.now)) result tokens.old
            tokens.new }
        ensures shorter { length tokens.new ≤ length tokens.old }
    {
        if !room.fits_node() {
            return Err(Stop::Deep);
        }
        let test = self.condition(tokens, room)?;
        let body = self.in_loop(tokens, room, context)?;
        statement_nodes::while_loop(self.rules.alloc, test, body)
    }

    /// The end of a `for` header and the body (ES3 12.6.3).
    fn for_body(
        &self,
        tokens: &mut Tokens<'_>,
        room: Room,
        context: &Context,
        test: Option<Boxed<Expr>>,
        step: Option<Boxed<Expr>>,
    ) -> Result<ForRest, Stop>
        requires statements { nests.Statements self.now.rules.form self.now.rules.bound
            (S.pre self.now.statement) (S.post self.now.statement) }
        requires within { length tokens.old < self.now.rules.bound }
        ensures reads { Reads self.now.rules.form parts.for_rest
            (kinds.for_body (view.room room) (view.context context.now) (lists.maybe_expr test)
            (lists.maybe_expr step)) result tokens.old tokens.new }
        ensures shorter { length tokens.new ≤ length tokens.old }
    {
        tokens.close_parenthesis()?;
        let body = self.loop_body(tokens, room, context)?;
        Ok(ForRest { test, step, body })
    }

    /// Behind the second part of a `for` header (ES3 12.6.3).
    fn for_step(
        &self,
        tokens: &mut Tokens<'_>,
        room: Room,
        context: &Context,
        test: Option<Boxed<Expr>>,
    ) -> Result<ForRest, Stop>
        requires expressions { nests.Expressions self.now.rules.form self.now.rules.bound
            (E.pre self.now.rules.expression) (E.post self.now.rules.expression) }
        requires statements { nests.Statements self.now.rules.form self.now.rules.bound
            (S.pre self.now.statement) (S.post self.now.statement) }
        requires within { length tokens.old < self.now.rules.bound }
        ensures reads { Reads self.now.rules.form parts.for_rest
            (kinds.for_step (view.room room) (view.context context.now) (lists.maybe_expr test))
            result tokens.old tokens.new }
        ensures shorter { length tokens.new ≤ length tokens.old }
    {
        tokens.semicolon()?;
        let step = self.rules.optional(tokens, room)?;
        self.for_body(tokens, room, context, test, step)
    }

    /// Behind the first part of a `for` header (ES3 12.6.3).
    fn for_parts(
        &self,
        tokens: &mut Tokens<'_>,
        room: Room,
        context: &Context,
    ) -> Result<ForRest, Stop>
        requires expressions { nests.Expressions self.now.rules.form self.now.rules.bound
            (E.pre self.now.rules.expression) (E.post self.now.rules.expression) }
        requires statements { nests.Statements self.now.rules.form self.now.rules.bound
            (S.pre self.now.statement) (S.post self.now.statement) }
        requires within { length tokens.old < self.now.rules.bound }
        ensures reads { Reads self.now.rules.form parts.for_rest
            (kinds.for_parts (view.room room) (view.context context.now)) result tokens.old
            tokens.new }
        ensures shorter { length tokens.new ≤ length tokens.old }
    {
        tokens.semicolon()?;
        let test = self.rules.optional(tokens, room)?;
        self.for_step(tokens, room, context, test)
    }

    /// Behind the `in` of a `for` header (ES3 12.6.4).
    fn iteration(
        &self,
        tokens: &mut Tokens<'_>,
        room: Room,
        context: &Context,
    ) -> Result<Iteration, Stop>
        requires expressions { nests.Expressions self.now.rules.form self.now.rules.bound
            (E.pre self.now.rules.expression) (E.post self.now.rules.expression) }
        requires statements { nests.Statements self.now.rules.form self.now.rules.bound
            (S.pre self.now.statement) (S.post self.now.statement) }
        requires within { length tokens.old < self.now.rules.bound }
        ensures reads { Reads self.now.rules.form parts.iteration
            (kinds.iteration (view.room room) (view.context context.now)) result tokens.old
            tokens.new }
        ensures shorter { length tokens.new ≤ length tokens.old }
    {
        let object = self.rules.part(tokens, room, true, Part::Comma)?;
        tokens.close_parenthesis()?;
        let body = self.loop_body(tokens, room, context)?;
        Ok(Iteration { object, body })
    }

    /// Behind the `in` that stands behind a declarator (ES3 12.6.4).
    fn in_of_variable(
        &self,
        tokens: &mut Tokens<'_>,
        room: Room,
        context: &Context,
        item: Boxed<VarItem>,
    ) -> Result<Boxed<Stmt>, Stop>
        requires expressions { nests.Expressions self.now.rules.form self.now.rules.bound
            (E.pre self.now.rules.expression) (E.post self.now.rules.expression) }
        requires statements { nests.Statements self.now.rules.form self.now.rules.bound
            (S.pre self.now.statement) (S.post self.now.statement) }
        requires within { length tokens.old < self.now.rules.bound }
        ensures reads { Reads self.now.rules.form stmt
            (kinds.for_in (kinds.a_var (lists.var_item item)) (view.room room)
            (view.context context.now)) result tokens.old tokens.new }
        ensures shorter { length tokens.new ≤ length tokens.old }
    {
        let iteration = self.iteration(tokens, room, context)?;
        statement_nodes::for_in_variable(self.rules.alloc, item, iteration)
    }

    /// Behind the comma that stands behind the first declarator (ES3 12.6.3).
    fn more_variables(
        &self,
        tokens: &mut Tokens<'_>,
        room: Room,
        context: &Context,
        item: Boxed<VarItem>,
    ) -> Result<Boxed<Stmt>, Stop>
        requires expressions { nests.Expressions self.now.rules.form self.now.rules.bound
            (E.pre self.now.rules.expression) (E.post self.now.rules.expression) }
        requires statements { nests.Statements self.now.rules.form self.now.rules.bound
            (S.pre self.now.statement) (S.post self.now.statement) }
        requires within { length tokens.old < self.now.rules.bound }
        ensures reads { Reads self.now.rules.form stmt
            (kinds.more_variables (lists.var_item item) (view.room room) (view.context context.now))
            result tokens.old tokens.new }
        ensures shorter { length tokens.new ≤ length tokens.old }
    {
        let items = self.rules.declarators(tokens, room, false)?;
        let rest = self.for_parts(tokens, room, context)?;
        statement_nodes::for_variables(self.rules.alloc, item, items, rest)
    }

    /// Behind the first declarator of a `for` header (ES3 12.6.3 and 12.6.4).
    fn behind_variable(
        &self,
        tokens: &mut Tokens<'_>,
        room: Room,
        context: &Context,
        item: Boxed<VarItem>,
    ) -> Result<Boxed<Stmt>, Stop>
        requires expressions { nests.Expressions self.now.rules.form self.now.rules.bound
            (E.pre self.now.rules.expression) (E.post self.now.rules.expression) }
        requires statements { nests.Statements self.now.rules.form self.now.rules.bound
            (S.pre self.now.statement) (S.post self.now.statement) }
        requires within { length tokens.old < self.now.rules.bound }
        ensures reads { Reads self.now.rules.form stmt
            (kinds.for_var (lists.var_item item) (view.room room) (view.context context.now)) result
            tokens.old tokens.new }
        ensures shorter { length tokens.new ≤ length tokens.old }
    {
        if tokens.at_in() {
            tokens.take();
            return self.in_of_variable(tokens, room, context, item);
        }
        if tokens.at_comma() {
            tokens.take();
            return self.more_variables(tokens, room, context, item);
        }
        let rest = self.for_parts(tokens, room, context)?;
        statement_nodes::for_variable(self.rules.alloc, item, rest)
    }

    /// Behind the `var` of a `for` header (ES3 12.6.3 and 12.6.4).
    fn for_variables(
        &self,
        tokens: &mut Tokens<'_>,
        room: Room,
        context: &Context,
    ) -> Result<Boxed<Stmt>, Stop>
        requires expressions { nests.Expressions self.now.rules.form self.now.rules.bound
            (E.pre self.now.rules.expression) (E.post self.now.rules.expression) }
        requires statements { nests.Statements self.now.rules.form self.now.rules.bound
            (S.pre self.now.statement) (S.post self.now.statement) }
        requires within { length tokens.old < self.now.rules.bound }
        ensures reads { Reads self.now.rules.form stmt
            (kinds.for_variables (view.room room) (view.context context.now)) result tokens.old
            tokens.new }
        ensures shorter { length tokens.new ≤ length tokens.old }
    {
        let item = self.rules.declarator(tokens, room, false)?;
        self.behind_variable(tokens, room, context, item)
    }

    /// Behind the `in` that stands behind an expression (ES3 12.6.4).
    fn in_of_target(
        &self,
        tokens: &mut Tokens<'_>,
        room: Room,
        context: &Context,
        target: Boxed<Expr>,
    ) -> Result<Boxed<Stmt>, Stop>
        requires expressions { nests.Expressions self.now.rules.form self.now.rules.bound
            (E.pre self.now.rules.expression) (E.post self.now.rules.expression) }
        requires statements { nests.Statements self.now.rules.form self.now.rules.bound
            (S.pre self.now.statement) (S.post self.now.statement) }
        requires within { length tokens.old < self.now.rules.bound }
        ensures reads { Reads self.now.rules.form stmt
            (kinds.for_in (tree.Target (expr target)) (view.room room) (view.context context.now))
            result tokens.old tokens.new }
        ensures shorter { length tokens.new ≤ length tokens.old }
    {
        let iteration = self.iteration(tokens, room, context)?;
        statement_nodes::for_in_target(self.rules.alloc, target, iteration)
    }

    /// Behind the expression that begins a `for` header (ES3 12.6.3 and 12.6.4).
    fn behind_first(
        &self,
        tokens: &mut Tokens<'_>,
        room: Room,
        context: &Context,
        first: Boxed<Expr>,
    ) -> Result<Boxed<Stmt>, Stop>
        requires expressions { nests.Expressions self.now.rules.form self.now.rules.bound
            (E.pre self.now.rules.expression) (E.post self.now.rules.expression) }
        requires statements { nests.Statements self.now.rules.form self.now.rules.bound
            (S.pre self.now.statement) (S.post self.now.statement) }
        requires within { length tokens.old < self.now.rules.bound }
        ensures reads { Reads self.now.rules.form stmt
            (kinds.for_expression (expr first) (view.room room) (view.context context.now)) result
            tokens.old tokens.new }
        ensures shorter { length tokens.new ≤ length tokens.old }
    {
        if !tokens.at_in() {
            let rest = self.for_parts(tokens, room, context)?;
            return statement_nodes::for_first(self.rules.alloc, first, rest);
        }
        if !is_target(&first) {
            return Err(Stop::Broken);
        }
        tokens.take();
        self.in_of_target(tokens, room, context, first)
    }

    /// A `for` header that begins with an expression (ES3 12.6.3 and 12.6.4).
    fn for_first(
        &self,
        tokens: &mut Tokens<'_>,
        room: Room,
        context: &Context,
    ) -> Result<Boxed<Stmt>, Stop>
        requires expressions { nests.Expressions self.now.rules.form self.now.rules.bound
            (E.pre self.now.rules.expression) (E.post self.now.rules.expression) }
        requires statements { nests.Statements self.now.rules.form self.now.rules.bound
            (S.pre self.now.statement) (S.post self.now.statement) }
        requires within { length tokens.old < self.now.rules.bound }
        ensures reads { Reads self.now.rules.form stmt
            (kinds.for_first (view.room room) (view.context context.now)) result tokens.old
            tokens.new }
        ensures shorter { length tokens.new ≤ length tokens.old }
    {
        let first = self.rules.part(tokens, room, false, Part::Comma)?;
        self.behind_first(tokens, room, context, first)
    }

    /// A `for` header behind its `(`, and the body (ES3 12.6.3 and 12.6.4).
    fn for_header(
        &self,
        tokens: &mut Tokens<'_>,
        room: Room,
        context: &Context,
    ) -> Result<Boxed<Stmt>, Stop>
        requires expressions { nests.Expressions self.now.rules.form self.now.rules.bound
            (E.pre self.now.rules.expression) (E.post self.now.rules.expression) }
        requires statements { nests.Statements self.now.rules.form self.now.rules.bound
            (S.pre self.now.statement) (S.post self.now.statement) }
        requires within { length tokens.old < self.now.rules.bound }
        ensures reads { Reads self.now.rules.form stmt
            (kinds.for_header (view.room room) (view.context context.now)) result tokens.old
            tokens.new }
        ensures shorter { length tokens.new ≤ length tokens.old }
    {
        if tokens.are_over() {
            return Err(Stop::Broken);
        }
        if tokens.at_var() {
            tokens.take();
            return self.for_variables(tokens, room, context);
        }
        if !tokens.at_semicolon() {
            return self.for_first(tokens, room, context);
        }
        let rest = self.for_parts(tokens, room, context)?;
        statement_nodes::for_nothing(self.rules.alloc, rest)
    }

    /// A `for` header in the room inside the loop (ES3 12.6.3 and 12.6.4).
    fn header_inside(
        &self,
        tokens: &mut Tokens<'_>,
        room: Room,
        context: &Context,
    ) -> Result<Boxed<Stmt>, Stop>
        requires expressions { nests.Expressions self.now.rules.form self.now.rules.bound
            (E.pre self.now.rules.expression) (E.post self.now.rules.expression) }
        requires statements { nests.Statements self.now.rules.form self.now.rules.bound
            (S.pre self.now.statement) (S.post self.now.statement) }
        requires within { length tokens.old < self.now.rules.bound }
        ensures reads { Reads self.now.rules.form stmt
            (kinds.for_header (rooms.inside (view.room room)) (view.context context.now)) result
            tokens.old tokens.new }
        ensures shorter { length tokens.new ≤ length tokens.old }
    {
        self.for_header(tokens, room.inside(), context)
    }

    /// Behind `for` (ES3 12.6.3 and 12.6.4).
    pub fn for_statement(
        &self,
        tokens: &mut Tokens<'_>,
        room: Room,
        context: &Context,
    ) -> Result<Boxed<Stmt>, Stop>
        requires expressions { nests.Expressions self.now.rules.form self.now.rules.bound
            (E.pre self.now.rules.expression) (E.post self.now.rules.expression) }
        requires statements { nests.Statements self.now.rules.form self.now.rules.bound
            (S.pre self.now.statement) (S.post self.now.statement) }
        requires within { length tokens.old < self.now.rules.bound }
        ensures reads { Reads self.now.rules.form stmt
            (kinds.for_loop (view.room room) (view.context context.now)) result tokens.old
            tokens.new }
        ensures shorter { length tokens.new ≤ length tokens.old }
    {
        if !room.fits_node() {
            return Err(Stop::Deep);
        }
        tokens.open_parenthesis()?;
        self.header_inside(tokens, room, context)
    }
}
