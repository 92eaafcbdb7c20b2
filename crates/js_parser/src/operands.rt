//! Operands (ES3 11.1 and 11.2).

ghost use Rattle.std.specs.Prelude.{◌≤◌, ◌<◌, length};
ghost use Rattle.js_parser.specs.Machine as rule;
ghost use Rattle.js_parser.specs.Nests as nests;
ghost use Rattle.js_parser.specs.Pieces as pieces;
ghost use Rattle.js_parser.specs.Reads.{Reads};
ghost use Rattle.js_parser.specs.View as view;
ghost use Rattle.js_tree.specs.Plain.{expr};

use crate::form::Form;
use crate::opening::{Opening, opening_at};
use crate::part::Part;
use crate::rooms::Room;
use crate::rules::Rules;
use crate::stop::Stop;
use crate::tokens::Tokens;
use crate::{late, names, nodes};
use dl_text::Units;
use js_tree::{Boxed, Expr, Exprs, Func};
use std::alloc::Global;

impl<
    E: Fn(Global, &mut Tokens<'_>, Form, Room, bool, Part) -> Result<Boxed<Expr>, Stop>,
    B: Fn(Global, &mut Tokens<'_>, Form, Room, Option<Units>) -> Result<Boxed<Func>, Stop>,
> Rules<E, B> {
    /// A LeftHandSideExpression, with calls, or without, as the callee of `new` (ES3 11.2).
    pub fn operand(
        &self,
        tokens: &mut Tokens<'_>,
        room: Room,
        with_calls: bool,
    ) -> Result<Boxed<Expr>, Stop>
        requires expressions { nests.Expressions self.now.form self.now.bound
            (E.pre self.now.expression) (E.post self.now.expression) }
        requires functions { nests.Functions self.now.form self.now.bound
            (B.pre self.now.function) (B.post self.now.function) }
        requires within { length tokens.old ≤ self.now.bound }
        ensures reads { Reads self.now.form expr (rule.operand (view.room room) with_calls) result
            tokens.old tokens.new }
        ensures shorter { length tokens.new ≤ length tokens.old }
    {
        if tokens.at_new() {
            tokens.take();
            return self.behind_new(tokens, room, with_calls);
        }
        let operand = self.primary(tokens, room)?;
        self.links(tokens, room, with_calls, operand)
    }

    /// Behind `new` (ES3 11.2.2).
    fn behind_new(
        &self,
        tokens: &mut Tokens<'_>,
        room: Room,
        with_calls: bool,
    ) -> Result<Boxed<Expr>, Stop>
        requires expressions { nests.Expressions self.now.form self.now.bound
            (E.pre self.now.expression) (E.post self.now.expression) }
        requires within { length tokens.old < self.now.bound }
        ensures reads { Reads self.now.form expr (pieces.behind_new (view.room room) with_calls)
            result tokens.old tokens.new }
        ensures shorter { length tokens.new ≤ length tokens.old }
    {
        if !room.fits_node() {
            return Err(Stop::Deep);
        }
        let callee = self.inside(tokens, room, true, Part::Operand(false))?;
        self.after_new(tokens, room, with_calls, callee)
    }

    /// Behind the callee of `new`: its arguments, if it has any, and what is linked to it then
    /// (ES3 11.2.2).
    fn after_new(
        &self,
        tokens: &mut Tokens<'_>,
        room: Room,
        with_calls: bool,
        callee: Boxed<Expr>,
    ) -> Result<Boxed<Expr>, Stop>
        requires expressions { nests.Expressions self.now.form self.now.bound
            (E.pre self.now.expression) (E.post self.now.expression) }
        requires within { length tokens.old < self.now.bound }
        ensures reads { Reads self.now.form expr
            (rule.after_new (view.room room) with_calls (expr callee)) result tokens.old
            tokens.new }
        ensures shorter { length tokens.new ≤ length tokens.old }
    {
        if !tokens.at_open_parenthesis() {
            return nodes::created(self.alloc, callee, Exprs::new(self.alloc));
        }
        tokens.take();
        let arguments = self.arguments(tokens, room)?;
        tokens.close_parenthesis()?;
        let created = nodes::created(self.alloc, callee, arguments)?;
        self.links(tokens, room, with_calls, created)
    }

    /// An operand other than `new`, without what is linked to it (ES3 11.1, 13).
    fn primary(&self, tokens: &mut Tokens<'_>, room: Room) -> Result<Boxed<Expr>, Stop>
        requires expressions { nests.Expressions self.now.form self.now.bound
            (E.pre self.now.expression) (E.post self.now.expression) }
        requires functions { nests.Functions self.now.form self.now.bound
            (B.pre self.now.function) (B.post self.now.function) }
        requires within { length tokens.old ≤ self.now.bound }
        ensures reads { Reads self.now.form expr (pieces.primary self.now.form (view.room room))
            result tokens.old tokens.new }
        ensures shorter { length tokens.new ≤ length tokens.old }
    {
        if let Some(name) = tokens.name() {
            return self.name(tokens, room, name);
        }
        let Some(opening) = opening_at(tokens) else {
            return self.leaf(tokens, room);
        };
        tokens.take();
        self.opened(tokens, room, opening)
    }

    /// An expression that begins with a name, which is the next token (ES3 11.1.2).
    fn name(&self, tokens: &mut Tokens<'_>, room: Room, name: &Units) -> Result<Boxed<Expr>, Stop>
        ensures reads { Reads self.now.form expr
            (pieces.name self.now.form name.now (view.room room)) result tokens.old tokens.new }
        ensures shorter { length tokens.new ≤ length tokens.old }
    {
        if names::is_eval(name) {
            return late::late_in(self.alloc, tokens, self.form, room);
        }
        if !names::is_reference(self.form, name) {
            return Err(Stop::Broken);
        }
        tokens.take();
        if !room.fits_node() {
            return Err(Stop::Deep);
        }
        nodes::name(self.alloc, name)
    }

    /// A token that is an expression by itself (ES3 11.1.1, 11.1.3).
    fn leaf(&self, tokens: &mut Tokens<'_>, room: Room) -> Result<Boxed<Expr>, Stop>
        ensures reads { Reads self.now.form expr (pieces.leaf_at (view.room room)) result
            tokens.old tokens.new }
        ensures shorter { length tokens.new ≤ length tokens.old }
    {
        let Some(token) = tokens.front() else {
            return Err(Stop::Broken);
        };
        let Some(leaf) = nodes::leaf(self.alloc, &token.kind)? else {
            return Err(Stop::Broken);
        };
        tokens.take();
        if !room.fits_node() {
            return Err(Stop::Deep);
        }
        Ok(leaf)
    }

    /// Behind the token that opens an operand (ES3 11.1.4, 11.1.5, 11.1.6, 13).
    fn opened(
        &self,
        tokens: &mut Tokens<'_>,
        room: Room,
        opening: Opening,
    ) -> Result<Boxed<Expr>, Stop>
        requires expressions { nests.Expressions self.now.form self.now.bound
            (E.pre self.now.expression) (E.post self.now.expression) }
        requires functions { nests.Functions self.now.form self.now.bound
            (B.pre self.now.function) (B.post self.now.function) }
        requires within { length tokens.old < self.now.bound }
        ensures reads { Reads self.now.form expr
            (pieces.opened self.now.form opening (view.room room)) result tokens.old tokens.new }
        ensures shorter { length tokens.new ≤ length tokens.old }
    {
        match opening {
            Opening::Function => self.behind_function(tokens, room),
            Opening::Array => self.array(tokens, room),
            Opening::Object => self.object(tokens, room),
            Opening::Parentheses => self.parenthesised(tokens, room),
        }
    }

    /// Behind the `(` of an expression in parentheses (ES3 11.1.6).
    fn parenthesised(&self, tokens: &mut Tokens<'_>, room: Room) -> Result<Boxed<Expr>, Stop>
        requires expressions { nests.Expressions self.now.form self.now.bound
            (E.pre self.now.expression) (E.post self.now.expression) }
        requires within { length tokens.old < self.now.bound }
        ensures reads { Reads self.now.form expr (pieces.parenthesised (view.room room)) result
            tokens.old tokens.new }
        ensures shorter { length tokens.new ≤ length tokens.old }
    {
        let inner = self.part(tokens, room, true, Part::Comma)?;
        tokens.close_parenthesis()?;
        Ok(inner)
    }

    /// A function expression, behind its word (ES3 section 13).
    fn behind_function(&self, tokens: &mut Tokens<'_>, room: Room) -> Result<Boxed<Expr>, Stop>
        requires functions { nests.Functions self.now.form self.now.bound
            (B.pre self.now.function) (B.post self.now.function) }
        requires within { length tokens.old < self.now.bound }
        ensures reads { Reads self.now.form expr
            (pieces.behind_function self.now.form (view.room room)) result tokens.old tokens.new }
        ensures shorter { length tokens.new ≤ length tokens.old }
    {
        if !room.fits_function() {
            return Err(Stop::Deep);
        }
        let name = self.function_name(tokens)?;
        let function = self.function(tokens, room, name)?;
        nodes::function(self.alloc, function)
    }

    /// The name of a function, if it has one (ES3 section 13).
    fn function_name(&self, tokens: &mut Tokens<'_>) -> Result<Option<Units>, Stop>
        ensures reads { Reads self.now.form (λ name. name) (pieces.function_name self.now.form)
            result tokens.old tokens.new }
        ensures shorter { length tokens.new ≤ length tokens.old }
    {
        if tokens.are_over() {
            return Err(Stop::Broken);
        }
        let Some(name) = tokens.name() else {
            return Ok(None);
        };
        if !names::is_binding(self.form, name) {
            return Err(Stop::Broken);
        }
        tokens.take();
        names::share_some(self.alloc, name)
    }
}
