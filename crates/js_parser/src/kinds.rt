//! The kinds of statements (ES3 section 12).

ghost use Rattle.std.specs.Prelude.{◌≤◌, ◌<◌, length, true};
ghost use Rattle.js_parser.specs.Contexts as contexts;
ghost use Rattle.js_parser.specs.ListViews as lists;
ghost use Rattle.js_parser.specs.Machine as rule;
ghost use Rattle.js_parser.specs.Nests as nests;
ghost use Rattle.js_parser.specs.Reads.{Reads};
ghost use Rattle.js_parser.specs.Rooms as rooms;
ghost use Rattle.js_parser.specs.StatementKinds as kinds;
ghost use Rattle.js_parser.specs.View as view;
ghost use Rattle.js_tree.specs.Plain.{body as statements, expr, stmt};

use crate::context::Context;
use crate::form::Form;
use crate::names::is_reference;
use crate::part::Part;
use crate::rooms::Room;
use crate::statement_kind::{Behind, Kind, kind_at};
use crate::statement_nodes;
use crate::statements::Statements;
use crate::stop::Stop;
use crate::tokens::Tokens;
use dl_text::Units;
use js_tree::{Boxed, Cases, Expr, Func, Stmt, Stmts, VarItems};
use std::alloc::Global;

impl<
    E: Fn(Global, &mut Tokens<'_>, Form, Room, bool, Part) -> Result<Boxed<Expr>, Stop>,
    B: Fn(Global, &mut Tokens<'_>, Form, Room, Option<Units>) -> Result<Boxed<Func>, Stop>,
    S: Fn(Global, &mut Tokens<'_>, Form, Room, &Context) -> Result<Boxed<Stmt>, Stop>,
> Statements<E, B, S> {
    /// A statement that is a part of another (ES3 section 12).
    pub fn in_part(
        &self,
        tokens: &mut Tokens<'_>,
        room: Room,
        context: &Context,
    ) -> Result<Boxed<Stmt>, Stop>
        requires statements { nests.Statements self.now.rules.form self.now.rules.bound
            (S.pre self.now.statement) (S.post self.now.statement) }
        requires within { length tokens.old < self.now.rules.bound }
        ensures reads { Reads self.now.rules.form stmt
            (rule.statement (rooms.inside (view.room room))
            (contexts.part (view.context context.now))) result tokens.old tokens.new }
        ensures shorter { length tokens.new ≤ length tokens.old }
    {
        let part = context.part(self.rules.alloc)?;
        self.nested(tokens, room.inside(), &part)
    }

    /// A statement behind this label (ES3 12.12).
    fn in_label(
        &self,
        tokens: &mut Tokens<'_>,
        room: Room,
        context: &Context,
        name: &Units,
    ) -> Result<Boxed<Stmt>, Stop>
        requires statements { nests.Statements self.now.rules.form self.now.rules.bound
            (S.pre self.now.statement) (S.post self.now.statement) }
        requires within { length tokens.old < self.now.rules.bound }
        ensures reads { Reads self.now.rules.form stmt
            (rule.statement (rooms.inside (view.room room))
            (contexts.labelled name.now (view.context context.now))) result tokens.old tokens.new }
        ensures shorter { length tokens.new ≤ length tokens.old }
    {
        let labelled = context.labelled(self.rules.alloc, name)?;
        self.nested(tokens, room.inside(), &labelled)
    }

    /// The statements of a part of a statement (ES3 12.1).
    fn list_in_part(
        &self,
        tokens: &mut Tokens<'_>,
        room: Room,
        context: &Context,
    ) -> Result<Stmts, Stop>
        requires statements { nests.Statements self.now.rules.form self.now.rules.bound
            (S.pre self.now.statement) (S.post self.now.statement) }
        requires within { length tokens.old < self.now.rules.bound }
        ensures reads { Reads self.now.rules.form statements
            (rule.list (rooms.inside (view.room room)) (contexts.part (view.context context.now)))
            result tokens.old tokens.new }
        ensures shorter { length tokens.new ≤ length tokens.old }
    {
        let part = context.part(self.rules.alloc)?;
        self.list(tokens, room.inside(), &part)
    }

    /// The clauses of a `switch`, in it (ES3 12.11).
    fn clauses_inside(
        &self,
        tokens: &mut Tokens<'_>,
        room: Room,
        context: &Context,
    ) -> Result<Cases, Stop>
        requires expressions { nests.Expressions self.now.rules.form self.now.rules.bound
            (E.pre self.now.rules.expression) (E.post self.now.rules.expression) }
        requires statements { nests.Statements self.now.rules.form self.now.rules.bound
            (S.pre self.now.statement) (S.post self.now.statement) }
        requires within { length tokens.old < self.now.rules.bound }
        ensures reads { Reads self.now.rules.form lists.clauses
            (rule.clauses (rooms.inside (view.room room))
            (contexts.clause (view.context context.now)) true) result tokens.old tokens.new }
        ensures shorter { length tokens.new ≤ length tokens.old }
    {
        let clause = context.clause(self.rules.alloc)?;
        self.clauses(tokens, room.inside(), &clause)
    }

    /// The declarators of a `var` statement (ES3 12.2).
    fn declarators_inside(&self, tokens: &mut Tokens<'_>, room: Room) -> Result<VarItems, Stop>
        requires expressions { nests.Expressions self.now.rules.form self.now.rules.bound
            (E.pre self.now.rules.expression) (E.post self.now.rules.expression) }
        requires within { length tokens.old < self.now.rules.bound }
        ensures reads { Reads self.now.rules.form lists.var_items
            (rule.declarators (rooms.inside (view.room room)) true) result tokens.old tokens.new }
        ensures shorter { length tokens.new ≤ length tokens.old }
    {
        self.rules.declarators(tokens, room.inside(), true)
    }

    /// An expression statement (ES3 12.4).
    fn stated(&self, tokens: &mut Tokens<'_>, room: Room) -> Result<Boxed<Stmt>, Stop>
        requires expressions { nests.Expressions self.now.rules.form self.now.rules.bound
            (E.pre self.now.rules.expression) (E.post self.now.rules.expression) }
        requires functions { nests.Functions self.now.rules.form self.now.rules.bound
            (B.pre self.now.rules.function) (B.post self.now.rules.function) }
        requires within { length tokens.old ≤ self.now.rules.bound }
        ensures reads { Reads self.now.rules.form stmt (rule.stated (view.room room)) result
            tokens.old tokens.new }
        ensures shorter { length tokens.new ≤ length tokens.old }
    {
        let value = self.rules.comma_inside(tokens, room, true)?;
        tokens.ended()?;
        statement_nodes::stated(self.rules.alloc, value)
    }

    /// Behind the `{` of a block (ES3 12.1).
    fn braces(
        &self,
        tokens: &mut Tokens<'_>,
        room: Room,
        context: &Context,
    ) -> Result<Boxed<Stmt>, Stop>
        requires statements { nests.Statements self.now.rules.form self.now.rules.bound
            (S.pre self.now.statement) (S.post self.now.statement) }
        requires within { length tokens.old < self.now.rules.bound }
        ensures reads { Reads self.now.rules.form stmt
            (rule.braces (view.room room) (view.context context.now)) result tokens.old tokens.new }
        ensures shorter { length tokens.new ≤ length tokens.old }
    {
        if !room.fits_node() {
            return Err(Stop::Deep);
        }
        let body = self.list_in_part(tokens, room, context)?;
        tokens.close_brace()?;
        statement_nodes::block(self.rules.alloc, body)
    }

    /// A block (ES3 12.1).
    pub fn block(
        &self,
        tokens: &mut Tokens<'_>,
        room: Room,
        context: &Context,
    ) -> Result<Boxed<Stmt>, Stop>
        requires statements { nests.Statements self.now.rules.form self.now.rules.bound
            (S.pre self.now.statement) (S.post self.now.statement) }
        requires within { length tokens.old < self.now.rules.bound }
        ensures reads { Reads self.now.rules.form stmt
            (rule.block (view.room room) (view.context context.now)) result tokens.old tokens.new }
        ensures shorter { length tokens.new ≤ length tokens.old }
    {
        tokens.open_brace()?;
        self.braces(tokens, room, context)
    }

    /// Behind `var` (ES3 12.2).
    fn variables(&self, tokens: &mut Tokens<'_>, room: Room) -> Result<Boxed<Stmt>, Stop>
        requires expressions { nests.Expressions self.now.rules.form self.now.rules.bound
            (E.pre self.now.rules.expression) (E.post self.now.rules.expression) }
        requires within { length tokens.old < self.now.rules.bound }
        ensures reads { Reads self.now.rules.form stmt (kinds.variables (view.room room)) result
            tokens.old tokens.new }
        ensures shorter { length tokens.new ≤ length tokens.old }
    {
        if !room.fits_node() {
            return Err(Stop::Deep);
        }
        let items = self.declarators_inside(tokens, room)?;
        tokens.ended()?;
        statement_nodes::variables(self.rules.alloc, items)
    }

    /// Behind the `;` of an empty statement (ES3 12.3).
    fn empty(&self, tokens: &mut Tokens<'_>, room: Room) -> Result<Boxed<Stmt>, Stop>
        ensures reads { Reads self.now.rules.form stmt (kinds.empty (view.room room)) result
            tokens.old tokens.new }
        ensures shorter { length tokens.new ≤ length tokens.old }
    {
        if !room.fits_node() {
            return Err(Stop::Deep);
        }
        statement_nodes::empty(self.rules.alloc)
    }

    /// An expression in parentheses, in a statement (ES3 12.5, 12.6 and 12.11).
    pub fn condition(&self, tokens: &mut Tokens<'_>, room: Room) -> Result<Boxed<Expr>, Stop>
        requires expressions { nests.Expressions self.now.rules.form self.now.rules.bound
            (E.pre self.now.rules.expression) (E.post self.now.rules.expression) }
        requires within { length tokens.old < self.now.rules.bound }
        ensures reads { Reads self.now.rules.form expr (kinds.condition (view.room room)) result
            tokens.old tokens.new }
        ensures shorter { length tokens.new ≤ length tokens.old }
    {
        tokens.open_parenthesis()?;
        let test = self.rules.inside(tokens, room, true, Part::Comma)?;
        tokens.close_parenthesis()?;
        Ok(test)
    }

    /// Behind the first part of an `if` statement (ES3 12.5).
    fn after_if(
        &self,
        tokens: &mut Tokens<'_>,
        room: Room,
        context: &Context,
        test: Boxed<Expr>,
        then: Boxed<Stmt>,
    ) -> Result<Boxed<Stmt>, Stop>
        requires statements { nests.Statements self.now.rules.form self.now.rules.bound
            (S.pre self.now.statement) (S.post self.now.statement) }
        requires within { length tokens.old < self.now.rules.bound }
        ensures reads { Reads self.now.rules.form stmt
            (rule.after_if (view.room room) (view.context context.now) (expr test) (stmt then))
            result tokens.old tokens.new }
        ensures shorter { length tokens.new ≤ length tokens.old }
    {
        if !tokens.at_else() {
            return statement_nodes::if_then(self.rules.alloc, test, then);
        }
        tokens.take();
        let other = self.in_part(tokens, room, context)?;
        statement_nodes::if_else(self.rules.alloc, test, then, other)
    }

    /// Behind `if` (ES3 12.5).
    fn if_statement(
        &self,
        tokens: &mut Tokens<'_>,
        room: Room,
        context: &Context,
    ) -> Result<Boxed<Stmt>, Stop>
        requires expressions { nests.Expressions self.now.rules.form self.now.rules.bound
            (E.pre self.now.rules.expression) (E.post self.now.rules.expression) }
        requires statements { nests.Statements self.now.rules.form self.now.rules.bound
            (S.pre self.now.statement) (S.post self.now.statement) }
        requires within { length tokens.old < self.now.rules.bound }
        ensures reads { Reads self.now.rules.form stmt
            (kinds.if_statement (view.room room) (view.context context.now)) result tokens.old
            tokens.new }
        ensures shorter { length tokens.new ≤ length tokens.old }
    {
        if !room.fits_node() {
            return Err(Stop::Deep);
        }
        let test = self.condition(tokens, room)?;
        let then = self.in_part(tokens, room, context)?;
        self.after_if(tokens, room, context, test, then)
    }

    /// The clauses of a `switch`, in braces (ES3 12.11).
    fn cases(&self, tokens: &mut Tokens<'_>, room: Room, context: &Context) -> Result<Cases, Stop>
        requires expressions { nests.Expressions self.now.rules.form self.now.rules.bound
            (E.pre self.now.rules.expression) (E.post self.now.rules.expression) }
        requires statements { nests.Statements self.now.rules.form self.now.rules.bound
            (S.pre self.now.statement) (S.post self.now.statement) }
        requires within { length tokens.old < self.now.rules.bound }
        ensures reads { Reads self.now.rules.form lists.clauses
            (kinds.cases (view.room room) (view.context context.now)) result tokens.old tokens.new }
        ensures shorter { length tokens.new ≤ length tokens.old }
    {
        tokens.open_brace()?;
        let cases = self.clauses_inside(tokens, room, context)?;
        tokens.close_brace()?;
        Ok(cases)
    }

    /// Behind `switch` (ES3 12.11).
    fn switch_statement(
        &self,
        tokens: &mut Tokens<'_>,
        room: Room,
        context: &Context,
    ) -> Result<Boxed<Stmt>, Stop>
        requires expressions { nests.Expressions self.now.rules.form self.now.rules.bound
            (E.pre self.now.rules.expression) (E.post self.now.rules.expression) }
        requires statements { nests.Statements self.now.rules.form self.now.rules.bound
            (S.pre self.now.statement) (S.post self.now.statement) }
        requires within { length tokens.old < self.now.rules.bound }
        ensures reads { Reads self.now.rules.form stmt
            (kinds.switch (view.room room) (view.context context.now)) result tokens.old
            tokens.new }
        ensures shorter { length tokens.new ≤ length tokens.old }
    {
        if !room.fits_node() {
            return Err(Stop::Deep);
        }
        let value = self.condition(tokens, room)?;
        let cases = self.cases(tokens, room, context)?;
        statement_nodes::switch(self.rules.alloc, value, cases)
    }

    /// Behind a label, at its colon (ES3 12.12).
    fn behind_label(
        &self,
        tokens: &mut Tokens<'_>,
        room: Room,
        context: &Context,
        name: &Units,
    ) -> Result<Boxed<Stmt>, Stop>
        requires statements { nests.Statements self.now.rules.form self.now.rules.bound
            (S.pre self.now.statement) (S.post self.now.statement) }
        requires within { length tokens.old < self.now.rules.bound }
        ensures reads { Reads self.now.rules.form stmt
            (kinds.behind_label (view.room room) (view.context context.now) name.now) result
            tokens.old tokens.new }
        ensures shorter { length tokens.new ≤ length tokens.old }
    {
        if context.has_label(name) {
            return Err(Stop::Broken);
        }
        tokens.take();
        if !room.fits_node() {
            return Err(Stop::Deep);
        }
        let body = self.in_label(tokens, room, context, name)?;
        statement_nodes::labelled(self.rules.alloc, name, body)
    }

    /// A statement that begins with a name (ES3 12.4 and 12.12).
    fn name_statement(
        &self,
        tokens: &mut Tokens<'_>,
        room: Room,
        context: &Context,
    ) -> Result<Boxed<Stmt>, Stop>
        requires expressions { nests.Expressions self.now.rules.form self.now.rules.bound
            (E.pre self.now.rules.expression) (E.post self.now.rules.expression) }
        requires functions { nests.Functions self.now.rules.form self.now.rules.bound
            (B.pre self.now.rules.function) (B.post self.now.rules.function) }
        requires statements { nests.Statements self.now.rules.form self.now.rules.bound
            (S.pre self.now.statement) (S.post self.now.statement) }
        requires within { length tokens.old ≤ self.now.rules.bound }
        ensures reads { Reads self.now.rules.form stmt
            (kinds.name_statement self.now.rules.form (view.room room) (view.context context.now))
            result tokens.old tokens.new }
        ensures shorter { length tokens.new ≤ length tokens.old }
    {
        let Some(name) = tokens.label() else {
            return self.stated(tokens, room);
        };
        if !is_reference(self.rules.form, name) {
            return self.stated(tokens, room);
        }
        tokens.take();
        self.behind_label(tokens, room, context, name)
    }

    /// A statement of this kind, behind its first token (ES3 section 12).
    fn behind_first_token(
        &self,
        tokens: &mut Tokens<'_>,
        room: Room,
        context: &Context,
        kind: Behind,
    ) -> Result<Boxed<Stmt>, Stop>
        requires expressions { nests.Expressions self.now.rules.form self.now.rules.bound
            (E.pre self.now.rules.expression) (E.post self.now.rules.expression) }
        requires statements { nests.Statements self.now.rules.form self.now.rules.bound
            (S.pre self.now.statement) (S.post self.now.statement) }
        requires within { length tokens.old < self.now.rules.bound }
        ensures reads { Reads self.now.rules.form stmt
            (kinds.behind_first kind self.now.rules.form (view.room room)
            (view.context context.now)) result tokens.old tokens.new }
        ensures shorter { length tokens.new ≤ length tokens.old }
    {
        match kind {
            Behind::Block => self.braces(tokens, room, context),
            Behind::Empty => self.empty(tokens, room),
            Behind::Variables => self.variables(tokens, room),
            Behind::If => self.if_statement(tokens, room, context),
            Behind::Do => self.do_statement(tokens, room, context),
            Behind::While => self.while_statement(tokens, room, context),
            Behind::For => self.for_statement(tokens, room, context),
            Behind::Switch => self.switch_statement(tokens, room, context),
            Behind::Throw => self.throw_statement(tokens, room),
            Behind::Try => self.try_statement(tokens, room, context),
        }
    }

    /// A statement (ES3 section 12).
    pub fn statement(
        &self,
        tokens: &mut Tokens<'_>,
        room: Room,
        context: &Context,
    ) -> Result<Boxed<Stmt>, Stop>
        requires expressions { nests.Expressions self.now.rules.form self.now.rules.bound
            (E.pre self.now.rules.expression) (E.post self.now.rules.expression) }
        requires functions { nests.Functions self.now.rules.form self.now.rules.bound
            (B.pre self.now.rules.function) (B.post self.now.rules.function) }
        requires statements { nests.Statements self.now.rules.form self.now.rules.bound
            (S.pre self.now.statement) (S.post self.now.statement) }
        requires within { length tokens.old ≤ self.now.rules.bound }
        ensures reads { Reads self.now.rules.form stmt
            (rule.statement (view.room room) (view.context context.now)) result tokens.old
            tokens.new }
        ensures shorter { length tokens.new ≤ length tokens.old }
    {
        if tokens.is_empty() {
            return Err(Stop::Broken);
        }
        match kind_at(tokens) {
            Kind::Continue => self.continue_statement(tokens, room, context),
            Kind::Break => self.break_statement(tokens, room, context),
            Kind::Return => self.return_statement(tokens, room, context),
            Kind::Named => self.name_statement(tokens, room, context),
            Kind::Expression => self.stated(tokens, room),
            Kind::Refused => Err(Stop::Broken),
            Kind::Behind(kind) => {
                tokens.take();
                self.behind_first_token(tokens, room, context, kind)
            }
        }
    }
}
