//! Lists of statements (ES3 12.1), of source elements (ES3 section 14) and of the clauses of a
//! `switch` (ES3 12.11).

ghost use Rattle.std.specs.Prelude.{◌≡◌, ◌≤◌, ◌<◌, ◌&&◌, ◌||◌, true, length, map, IfOk};
ghost use Rattle.js_parser.specs.ListViews.{maybe_expr, clause_parts, clauses};
ghost use Rattle.js_parser.specs.Machine as rule;
ghost use Rattle.js_parser.specs.Nests as nests;
ghost use Rattle.js_parser.specs.Reads.{Reads};
ghost use Rattle.js_parser.specs.StatementPieces as pieces;
ghost use Rattle.js_parser.specs.View as view;
ghost use Rattle.js_tree.specs.Plain as plain;

use crate::context::Context;
use crate::declarators::binding;
use crate::form::Form;
use crate::part::Part;
use crate::rooms::Room;
use crate::rules::Rules;
use crate::statements::Statements;
use crate::stop::Stop;
use crate::tokens::Tokens;
use crate::tree_lists;
use dl_text::Units;
use js_tree::{Boxed, Cases, Expr, Func, Stmt, Stmts};
use std::alloc::Global;

/// Whether a clause with a test may come, or one without, where `default` may come.
fn may_come(tested: bool, default_may_come: bool) -> bool
    ensures { result ≡ (tested || default_may_come) }
{
    tested || default_may_come
}

/// Whether `default` may come behind a clause with a test, or without, where it may come before.
fn may_follow(tested: bool, default_may_come: bool) -> bool
    ensures { result ≡ (tested && default_may_come) }
{
    tested && default_may_come
}

impl<
    E: Fn(Global, &mut Tokens<'_>, Form, Room, bool, Part) -> Result<Boxed<Expr>, Stop>,
    B: Fn(Global, &mut Tokens<'_>, Form, Room, Option<Units>) -> Result<Boxed<Func>, Stop>,
> Rules<E, B> {
    /// One more function declaration (ES3 section 13), behind these and behind `function`.
    fn and_declared(
        &self,
        tokens: &mut Tokens<'_>,
        room: Room,
        before: Stmts,
    ) -> Result<Stmts, Stop>
        requires functions { nests.Functions self.now.form self.now.bound
            (B.pre self.now.function) (B.post self.now.function) }
        requires within { length tokens.old < self.now.bound }
        ensures reads { Reads self.now.form (map plain.stmt)
            (pieces.and_declared self.now.form (view.room room) (map plain.stmt before)) result
            tokens.old tokens.new }
        ensures shorter { length tokens.new ≤ length tokens.old }
    {
        if !room.fits_function() {
            return Err(Stop::Deep);
        }
        let name = binding(self.alloc, self.form, tokens)?;
        let function = self.function(tokens, room, Some(name))?;
        tree_lists::with_declared(before, function)
    }

    /// The test of a clause behind `case`; none is behind `default` (ES3 12.11).
    fn clause_test(
        &self,
        tokens: &mut Tokens<'_>,
        room: Room,
        tested: bool,
    ) -> Result<Option<Boxed<Expr>>, Stop>
        requires expressions { nests.Expressions self.now.form self.now.bound
            (E.pre self.now.expression) (E.post self.now.expression) }
        requires within { length tokens.old < self.now.bound }
        ensures reads { Reads self.now.form maybe_expr
            (pieces.clause_test tested (view.room room)) result tokens.old tokens.new }
        ensures shorter { length tokens.new ≤ length tokens.old }
    {
        if !tested {
            return Ok(None);
        }
        let test = self.part(tokens, room, true, Part::Comma)?;
        Ok(Some(test))
    }
}

impl<
    E: Fn(Global, &mut Tokens<'_>, Form, Room, bool, Part) -> Result<Boxed<Expr>, Stop>,
    B: Fn(Global, &mut Tokens<'_>, Form, Room, Option<Units>) -> Result<Boxed<Func>, Stop>,
    S: Fn(Global, &mut Tokens<'_>, Form, Room, &Context) -> Result<Boxed<Stmt>, Stop>,
> Statements<E, B, S> {
    /// One more statement, behind these.
    fn and_statement(
        &self,
        tokens: &mut Tokens<'_>,
        room: Room,
        context: &Context,
        before: Stmts,
    ) -> Result<Stmts, Stop>
        requires statements { nests.Statements self.now.rules.form self.now.rules.bound
            (S.pre self.now.statement) (S.post self.now.statement) }
        requires within { length tokens.old < self.now.rules.bound }
        ensures reads { Reads self.now.rules.form (map plain.stmt)
            (pieces.and_statement (view.room room) (view.context context.now)
            (map plain.stmt before)) result tokens.old tokens.new }
        ensures shorter { length tokens.new ≤ length tokens.old }
        ensures some { IfOk result (λ _. length tokens.new < length tokens.old) }
    {
        let item = self.nested(tokens, room, context)?;
        tree_lists::with_statement(before, item)
    }

    /// Statements up to the end of a block or a clause (ES3 12.1).
    pub fn list(
        &self,
        tokens: &mut Tokens<'_>,
        room: Room,
        context: &Context,
    ) -> Result<Stmts, Stop>
        requires statements { nests.Statements self.now.rules.form self.now.rules.bound
            (S.pre self.now.statement) (S.post self.now.statement) }
        requires within { length tokens.old < self.now.rules.bound }
        ensures reads { Reads self.now.rules.form plain.body
            (rule.list (view.room room) (view.context context.now)) result tokens.old tokens.new }
        ensures shorter { length tokens.new ≤ length tokens.old }
    {
        let mut items = Stmts::new(self.rules.alloc);
        'statements: while tokens.goes_on_list() {
            items = self.and_statement(tokens, room, context, items)?;
        }
        Ok(items)
    }

    /// One more statement or function declaration, behind these (ES3 section 14).
    fn and_element(
        &self,
        tokens: &mut Tokens<'_>,
        room: Room,
        context: &Context,
        before: Stmts,
    ) -> Result<Stmts, Stop>
        requires functions { nests.Functions self.now.rules.form self.now.rules.bound
            (B.pre self.now.rules.function) (B.post self.now.rules.function) }
        requires statements { nests.Statements self.now.rules.form self.now.rules.bound
            (S.pre self.now.statement) (S.post self.now.statement) }
        requires within { length tokens.old < self.now.rules.bound }
        ensures reads { Reads self.now.rules.form (map plain.stmt)
            (pieces.and_element self.now.rules.form (view.room room) (view.context context.now)
            (map plain.stmt before)) result tokens.old tokens.new }
        ensures shorter { length tokens.new ≤ length tokens.old }
        ensures some { IfOk result (λ _. length tokens.new < length tokens.old) }
    {
        if tokens.at_function() {
            tokens.take();
            return self.rules.and_declared(tokens, room, before);
        }
        self.and_statement(tokens, room, context, before)
    }

    /// Source elements up to the end of a function or a script (ES3 section 14).
    pub fn source(
        &self,
        tokens: &mut Tokens<'_>,
        room: Room,
        context: &Context,
    ) -> Result<Stmts, Stop>
        requires functions { nests.Functions self.now.rules.form self.now.rules.bound
            (B.pre self.now.rules.function) (B.post self.now.rules.function) }
        requires statements { nests.Statements self.now.rules.form self.now.rules.bound
            (S.pre self.now.statement) (S.post self.now.statement) }
        requires within { length tokens.old < self.now.rules.bound }
        ensures reads { Reads self.now.rules.form plain.body
            (rule.source (view.room room) (view.context context.now)) result tokens.old tokens.new }
        ensures shorter { length tokens.new ≤ length tokens.old }
    {
        let mut items = Stmts::new(self.rules.alloc);
        'elements: while tokens.goes_on_elements() {
            items = self.and_element(tokens, room, context, items)?;
        }
        Ok(items)
    }

    /// One more clause of a `switch`, behind these and behind its word (ES3 12.11).
    fn and_clause(
        &self,
        tokens: &mut Tokens<'_>,
        room: Room,
        context: &Context,
        tested: bool,
        before: Cases,
    ) -> Result<Cases, Stop>
        requires expressions { nests.Expressions self.now.rules.form self.now.rules.bound
            (E.pre self.now.rules.expression) (E.post self.now.rules.expression) }
        requires statements { nests.Statements self.now.rules.form self.now.rules.bound
            (S.pre self.now.statement) (S.post self.now.statement) }
        requires within { length tokens.old < self.now.rules.bound }
        ensures reads { Reads self.now.rules.form clause_parts
            (pieces.and_clause tested (view.room room) (view.context context.now)
            (clause_parts before)) result tokens.old tokens.new }
        ensures shorter { length tokens.new ≤ length tokens.old }
    {
        let test = self.rules.clause_test(tokens, room, tested)?;
        tokens.colon()?;
        let body = self.list(tokens, room, context)?;
        tree_lists::with_clause(before, test, body)
    }

    /// The clauses of a `switch`, of which one at most is `default` (ES3 12.11).
    pub fn clauses(
        &self,
        tokens: &mut Tokens<'_>,
        room: Room,
        context: &Context,
    ) -> Result<Cases, Stop>
        requires expressions { nests.Expressions self.now.rules.form self.now.rules.bound
            (E.pre self.now.rules.expression) (E.post self.now.rules.expression) }
        requires statements { nests.Statements self.now.rules.form self.now.rules.bound
            (S.pre self.now.statement) (S.post self.now.statement) }
        requires within { length tokens.old < self.now.rules.bound }
        ensures reads { Reads self.now.rules.form clauses
            (rule.clauses (view.room room) (view.context context.now) true) result tokens.old
            tokens.new }
        ensures shorter { length tokens.new ≤ length tokens.old }
    {
        let mut items = Cases::new(self.rules.alloc);
        let mut default_may_come = true;
        'clauses: while tokens.begins_clause() {
            let tested = tokens.at_case();
            if !may_come(tested, default_may_come) {
                return Err(Stop::Broken);
            }
            tokens.take();
            items = self.and_clause(tokens, room, context, tested, items)?;
            default_may_come = may_follow(tested, default_may_come);
        }
        Ok(items)
    }
}
