//! The `try` statement (ES3 12.14).

ghost use Rattle.std.specs.Prelude.{◌≤◌, ◌<◌, length};
ghost use Rattle.js_parser.specs.Contexts as contexts;
ghost use Rattle.js_parser.specs.Machine as rule;
ghost use Rattle.js_parser.specs.Nests as nests;
ghost use Rattle.js_parser.specs.Reads.{Reads};
ghost use Rattle.js_parser.specs.Rooms as rooms;
ghost use Rattle.js_parser.specs.StatementKinds as kinds;
ghost use Rattle.js_parser.specs.View as view;
ghost use Rattle.js_tree.specs.Plain.{stmt};
ghost use Rattle.js_tree.specs.Tree as tree;

use crate::context::Context;
use crate::declarators::binding;
use crate::form::Form;
use crate::part::Part;
use crate::rooms::Room;
use crate::statement_nodes;
use crate::statements::Statements;
use crate::stop::Stop;
use crate::tokens::Tokens;
use dl_text::Units;
use js_tree::{Boxed, Expr, Func, Stmt};
use std::alloc::Global;

impl<
    E: Fn(Global, &mut Tokens<'_>, Form, Room, bool, Part) -> Result<Boxed<Expr>, Stop>,
    B: Fn(Global, &mut Tokens<'_>, Form, Room, Option<Units>) -> Result<Boxed<Func>, Stop>,
    S: Fn(Global, &mut Tokens<'_>, Form, Room, &Context) -> Result<Boxed<Stmt>, Stop>,
> Statements<E, B, S> {
    /// A block of a `try` statement (ES3 12.14).
    fn inner_block(
        &self,
        tokens: &mut Tokens<'_>,
        room: Room,
        context: &Context,
    ) -> Result<Boxed<Stmt>, Stop>
        requires statements { nests.Statements self.now.rules.form self.now.rules.bound
            (S.pre self.now.statement) (S.post self.now.statement) }
        requires within { length tokens.old < self.now.rules.bound }
        ensures reads { Reads self.now.rules.form stmt
            (rule.block (rooms.inside (view.room room)) (contexts.part (view.context context.now)))
            result tokens.old tokens.new }
        ensures shorter { length tokens.new ≤ length tokens.old }
    {
        self.block(tokens, room.inside(), context)
    }

    /// The name of a `catch`, and its `)` (ES3 12.14).
    fn catch_name(&self, tokens: &mut Tokens<'_>) -> Result<Units, Stop>
        ensures reads { Reads self.now.rules.form (λ name. name)
            (kinds.catch_name self.now.rules.form) result tokens.old tokens.new }
        ensures shorter { length tokens.new ≤ length tokens.old }
    {
        let name = binding(self.rules.alloc, self.rules.form, tokens)?;
        tokens.close_parenthesis()?;
        Ok(name)
    }

    /// Behind the block of a `catch` (ES3 12.14).
    fn after_catch(
        &self,
        tokens: &mut Tokens<'_>,
        room: Room,
        context: &Context,
        tried: Boxed<Stmt>,
        name: Units,
        handler: Boxed<Stmt>,
    ) -> Result<Boxed<Stmt>, Stop>
        requires statements { nests.Statements self.now.rules.form self.now.rules.bound
            (S.pre self.now.statement) (S.post self.now.statement) }
        requires within { length tokens.old < self.now.rules.bound }
        ensures reads { Reads self.now.rules.form stmt
            (rule.after_catch (view.room room) (contexts.part (view.context context.now))
            (stmt tried) (tree.ACatch name (stmt handler))) result tokens.old tokens.new }
        ensures shorter { length tokens.new ≤ length tokens.old }
    {
        if !tokens.at_finally() {
            return statement_nodes::try_catch(self.rules.alloc, tried, name, handler);
        }
        tokens.take();
        let last = self.inner_block(tokens, room, context)?;
        statement_nodes::try_both(self.rules.alloc, tried, name, handler, last)
    }

    /// Behind `catch` (ES3 12.14).
    fn caught(
        &self,
        tokens: &mut Tokens<'_>,
        room: Room,
        context: &Context,
        tried: Boxed<Stmt>,
    ) -> Result<Boxed<Stmt>, Stop>
        requires statements { nests.Statements self.now.rules.form self.now.rules.bound
            (S.pre self.now.statement) (S.post self.now.statement) }
        requires within { length tokens.old < self.now.rules.bound }
        ensures reads { Reads self.now.rules.form stmt
            (kinds.caught self.now.rules.form (view.room room) (view.context context.now)
            (stmt tried)) result tokens.old tokens.new }
        ensures shorter { length tokens.new ≤ length tokens.old }
    {
        tokens.open_parenthesis()?;
        let name = self.catch_name(tokens)?;
        let handler = self.inner_block(tokens, room, context)?;
        self.after_catch(tokens, room, context, tried, name, handler)
    }

    /// Behind the first block of a `try` statement (ES3 12.14).
    fn after_try(
        &self,
        tokens: &mut Tokens<'_>,
        room: Room,
        context: &Context,
        tried: Boxed<Stmt>,
    ) -> Result<Boxed<Stmt>, Stop>
        requires statements { nests.Statements self.now.rules.form self.now.rules.bound
            (S.pre self.now.statement) (S.post self.now.statement) }
        requires within { length tokens.old < self.now.rules.bound }
        ensures reads { Reads self.now.rules.form stmt
            (rule.after_try self.now.rules.form (view.room room)
            (contexts.part (view.context context.now)) (stmt tried)) result tokens.old tokens.new }
        ensures shorter { length tokens.new ≤ length tokens.old }
    {
        if tokens.at_catch() {
            tokens.take();
            return self.caught(tokens, room, context, tried);
        }
        if !tokens.at_finally() {
            return Err(Stop::Broken);
        }
        tokens.take();
        let last = self.inner_block(tokens, room, context)?;
        statement_nodes::try_finally(self.rules.alloc, tried, last)
    }

    /// Behind `try` (ES3 12.14).
    pub fn try_statement(
        &self,
        tokens: &mut Tokens<'_>,
        room: Room,
        context: &Context,
    ) -> Result<Boxed<Stmt>, Stop>
        requires statements { nests.Statements self.now.rules.form self.now.rules.bound
            (S.pre self.now.statement) (S.post self.now.statement) }
        requires within { length tokens.old < self.now.rules.bound }
        ensures reads { Reads self.now.rules.form stmt
            (kinds.try_statement self.now.rules.form (view.room room) (view.context context.now))
            result tokens.old tokens.new }
        ensures shorter { length tokens.new ≤ length tokens.old }
    {
        if !room.fits_node() {
            return Err(Stop::Deep);
        }
        let tried = self.inner_block(tokens, room, context)?;
        self.after_try(tokens, room, context, tried)
    }
}
