//! Expressions with operators (ES3 11.3 to 11.14).

ghost use Rattle.std.specs.Prelude.{◌≤◌, ◌<◌, length};
ghost use Rattle.js_parser.specs.Machine as rule;
ghost use Rattle.js_parser.specs.Nests as nests;
ghost use Rattle.js_parser.specs.Pieces as pieces;
ghost use Rattle.js_parser.specs.Reads.{Reads};
ghost use Rattle.js_parser.specs.Rooms as rooms;
ghost use Rattle.js_parser.specs.View as view;
ghost use Rattle.js_tree.specs.Plain.{expr};

use crate::build;
use crate::form::Form;
use crate::operators::{Operator, changes};
use crate::part::Part;
use crate::rooms::Room;
use crate::rules::Rules;
use crate::stop::Stop;
use crate::targets::is_target;
use crate::tokens::Tokens;
use dl_text::Units;
use js_tree::{BinaryOp, Boxed, Expr, Func, PrefixOp};
use std::alloc::Global;

/// The level of the operator that binds least between two operands, `||`.
const LEAST_LEVEL: u8 = 4;

impl<
    E: Fn(Global, &mut Tokens<'_>, Form, Room, bool, Part) -> Result<Boxed<Expr>, Stop>,
    B: Fn(Global, &mut Tokens<'_>, Form, Room, Option<Units>) -> Result<Boxed<Func>, Stop>,
> Rules<E, B> {
    /// Behind the `?` of a conditional (ES3 11.12).
    fn conditional(
        &self,
        tokens: &mut Tokens<'_>,
        room: Room,
        with_in: bool,
        test: Boxed<Expr>,
    ) -> Result<Boxed<Expr>, Stop>
        requires expressions { nests.Expressions self.now.form self.now.bound
            (E.pre self.now.expression) (E.post self.now.expression) }
        requires within { length tokens.old < self.now.bound }
        ensures reads { Reads self.now.form expr
            (pieces.conditional (view.room room) with_in (expr test)) result tokens.old tokens.new }
        ensures shorter { length tokens.new ≤ length tokens.old }
    {
        if !room.fits_around(&test) {
            return Err(Stop::Deep);
        }
        let then = self.inside(tokens, room, true, Part::Assignment)?;
        tokens.colon()?;
        let other = self.inside(tokens, room, with_in, Part::Assignment)?;
        build::conditional(self.alloc, test, then, other)
    }

    /// Behind the operator `,` (ES3 11.14).
    fn behind_comma(
        &self,
        tokens: &mut Tokens<'_>,
        room: Room,
        with_in: bool,
        first: Boxed<Expr>,
    ) -> Result<Boxed<Expr>, Stop>
        requires expressions { nests.Expressions self.now.form self.now.bound
            (E.pre self.now.expression) (E.post self.now.expression) }
        requires within { length tokens.old < self.now.bound }
        ensures reads { Reads self.now.form expr
            (pieces.behind_comma (view.room room) with_in (expr first)) result tokens.old
            tokens.new }
        ensures shorter { length tokens.new ≤ length tokens.old }
    {
        if !room.fits_around(&first) {
            return Err(Stop::Deep);
        }
        let last = self.inside(tokens, room, with_in, Part::Assignment)?;
        build::comma(self.alloc, first, last)
    }

    /// The operators `,` behind an expression (ES3 11.14).
    fn commas(
        &self,
        tokens: &mut Tokens<'_>,
        room: Room,
        with_in: bool,
        first: Boxed<Expr>,
    ) -> Result<Boxed<Expr>, Stop>
        requires expressions { nests.Expressions self.now.form self.now.bound
            (E.pre self.now.expression) (E.post self.now.expression) }
        requires within { length tokens.old ≤ self.now.bound }
        ensures reads { Reads self.now.form expr
            (rule.comma_tail (view.room room) with_in (expr first)) result tokens.old tokens.new }
        ensures shorter { length tokens.new ≤ length tokens.old }
    {
        let mut left = first;
        'operators: while tokens.at_comma() {
            tokens.take();
            left = self.behind_comma(tokens, room, with_in, left)?;
        }
        Ok(left)
    }

    /// Behind the operator of an assignment (ES3 11.13).
    fn assigned(
        &self,
        tokens: &mut Tokens<'_>,
        room: Room,
        with_in: bool,
        op: Option<BinaryOp>,
        target: Boxed<Expr>,
    ) -> Result<Boxed<Expr>, Stop>
        requires expressions { nests.Expressions self.now.form self.now.bound
            (E.pre self.now.expression) (E.post self.now.expression) }
        requires within { length tokens.old < self.now.bound }
        ensures reads { Reads self.now.form expr
            (pieces.assignment op (view.room room) with_in (expr target)) result tokens.old
            tokens.new }
        ensures shorter { length tokens.new ≤ length tokens.old }
    {
        if !room.fits_around(&target) {
            return Err(Stop::Deep);
        }
        let value = self.inside(tokens, room, with_in, Part::Assignment)?;
        build::assignment(self.alloc, op, target, value)
    }

    /// Behind an operation: a conditional, an assignment or nothing (ES3 11.12 and 11.13).
    fn choice(
        &self,
        tokens: &mut Tokens<'_>,
        room: Room,
        with_in: bool,
        left: Boxed<Expr>,
    ) -> Result<Boxed<Expr>, Stop>
        requires expressions { nests.Expressions self.now.form self.now.bound
            (E.pre self.now.expression) (E.post self.now.expression) }
        requires within { length tokens.old ≤ self.now.bound }
        ensures reads { Reads self.now.form expr
            (rule.choice (view.room room) with_in (expr left)) result tokens.old tokens.new }
        ensures shorter { length tokens.new ≤ length tokens.old }
    {
        if tokens.at_question() {
            tokens.take();
            return self.conditional(tokens, room, with_in, left);
        }
        let Some(op) = tokens.assignment_operator() else {
            return Ok(left);
        };
        if !is_target(&left) {
            return Err(Stop::Broken);
        }
        tokens.take();
        self.assigned(tokens, room, with_in, op, left)
    }

    /// The operand behind an operator, with operators that bind tighter (ES3 11.5 to 11.11).
    fn right(
        &self,
        tokens: &mut Tokens<'_>,
        room: Room,
        with_in: bool,
        op: Operator,
    ) -> Result<Boxed<Expr>, Stop>
        requires expressions { nests.Expressions self.now.form self.now.bound
            (E.pre self.now.expression) (E.post self.now.expression) }
        requires within { length tokens.old < self.now.bound }
        ensures reads { Reads self.now.form expr
            (pieces.right (view.operator op) (view.room room) with_in) result tokens.old
            tokens.new }
        ensures shorter { length tokens.new ≤ length tokens.old }
    {
        self.inside(tokens, room, with_in, Part::Operation(op.level_behind()))
    }

    /// Behind an operator between two operands (ES3 11.5 to 11.11).
    fn binary(
        &self,
        tokens: &mut Tokens<'_>,
        room: Room,
        with_in: bool,
        op: Operator,
        left: Boxed<Expr>,
    ) -> Result<Boxed<Expr>, Stop>
        requires expressions { nests.Expressions self.now.form self.now.bound
            (E.pre self.now.expression) (E.post self.now.expression) }
        requires within { length tokens.old < self.now.bound }
        ensures reads { Reads self.now.form expr
            (pieces.binary (view.operator op) (view.room room) with_in (expr left)) result
            tokens.old tokens.new }
        ensures shorter { length tokens.new ≤ length tokens.old }
    {
        if !room.fits_around(&left) {
            return Err(Stop::Deep);
        }
        let right = self.right(tokens, room, with_in, op)?;
        build::joined(self.alloc, op, left, right)
    }

    /// The operators of at least this level behind an operand (ES3 11.5 to 11.11).
    fn operations(
        &self,
        tokens: &mut Tokens<'_>,
        room: Room,
        with_in: bool,
        least: u8,
        first: Boxed<Expr>,
    ) -> Result<Boxed<Expr>, Stop>
        requires expressions { nests.Expressions self.now.form self.now.bound
            (E.pre self.now.expression) (E.post self.now.expression) }
        requires within { length tokens.old ≤ self.now.bound }
        ensures reads { Reads self.now.form expr
            (rule.tail (view.room room) with_in least (expr first)) result tokens.old tokens.new }
        ensures shorter { length tokens.new ≤ length tokens.old }
    {
        let mut left = first;
        'operators: while let Some(op) = tokens.operator(with_in, least) {
            tokens.take();
            left = self.binary(tokens, room, with_in, op, left)?;
        }
        Ok(left)
    }

    /// Operands with operators of at least this level between them (ES3 11.5 to 11.11).
    fn operation(
        &self,
        tokens: &mut Tokens<'_>,
        room: Room,
        with_in: bool,
        least: u8,
    ) -> Result<Boxed<Expr>, Stop>
        requires expressions { nests.Expressions self.now.form self.now.bound
            (E.pre self.now.expression) (E.post self.now.expression) }
        requires functions { nests.Functions self.now.form self.now.bound
            (B.pre self.now.function) (B.post self.now.function) }
        requires within { length tokens.old ≤ self.now.bound }
        ensures reads { Reads self.now.form expr
            (rule.climb (view.room room) with_in least) result tokens.old tokens.new }
        ensures shorter { length tokens.new ≤ length tokens.old }
    {
        let first = self.unary(tokens, room)?;
        self.operations(tokens, room, with_in, least, first)
    }

    /// Behind `++` or `--` before a target (ES3 11.4.4 and 11.4.5).
    fn changed(
        &self,
        tokens: &mut Tokens<'_>,
        room: Room,
        op: PrefixOp,
    ) -> Result<Boxed<Expr>, Stop>
        requires expressions { nests.Expressions self.now.form self.now.bound
            (E.pre self.now.expression) (E.post self.now.expression) }
        requires within { length tokens.old < self.now.bound }
        ensures reads { Reads self.now.form expr
            (pieces.changed op (view.room room)) result tokens.old tokens.new }
        ensures shorter { length tokens.new ≤ length tokens.old }
    {
        if !room.fits_node() {
            return Err(Stop::Deep);
        }
        let target = self.inside(tokens, room, true, Part::Operand(true))?;
        if !is_target(&target) {
            return Err(Stop::Broken);
        }
        build::prefix(self.alloc, op, target)
    }

    /// Behind another prefix operator (ES3 11.4).
    fn prefixed(
        &self,
        tokens: &mut Tokens<'_>,
        room: Room,
        op: PrefixOp,
    ) -> Result<Boxed<Expr>, Stop>
        requires expressions { nests.Expressions self.now.form self.now.bound
            (E.pre self.now.expression) (E.post self.now.expression) }
        requires within { length tokens.old < self.now.bound }
        ensures reads { Reads self.now.form expr
            (pieces.prefixed op (view.room room)) result tokens.old tokens.new }
        ensures shorter { length tokens.new ≤ length tokens.old }
    {
        if !room.fits_node() {
            return Err(Stop::Deep);
        }
        let operand = self.inside(tokens, room, true, Part::Unary)?;
        build::prefix(self.alloc, op, operand)
    }

    /// Behind an operand: `++` or `--` on the line, or nothing (ES3 11.3).
    fn postfix(
        &self,
        tokens: &mut Tokens<'_>,
        room: Room,
        target: Boxed<Expr>,
    ) -> Result<Boxed<Expr>, Stop>
        ensures reads { Reads self.now.form expr
            (rule.postfix (view.room room) (expr target)) result tokens.old tokens.new }
        ensures shorter { length tokens.new ≤ length tokens.old }
    {
        let Some(op) = tokens.postfix_operator() else {
            return Ok(target);
        };
        if !is_target(&target) {
            return Err(Stop::Broken);
        }
        tokens.take();
        if !room.fits_around(&target) {
            return Err(Stop::Deep);
        }
        build::postfix(self.alloc, target, op)
    }

    /// A UnaryExpression (ES3 11.4).
    fn unary(&self, tokens: &mut Tokens<'_>, room: Room) -> Result<Boxed<Expr>, Stop>
        requires expressions { nests.Expressions self.now.form self.now.bound
            (E.pre self.now.expression) (E.post self.now.expression) }
        requires functions { nests.Functions self.now.form self.now.bound
            (B.pre self.now.function) (B.post self.now.function) }
        requires within { length tokens.old ≤ self.now.bound }
        ensures reads { Reads self.now.form expr
            (rule.unary (view.room room)) result tokens.old tokens.new }
        ensures shorter { length tokens.new ≤ length tokens.old }
    {
        if tokens.is_empty() {
            return Err(Stop::Broken);
        }
        let Some(op) = tokens.prefix_operator() else {
            let operand = self.operand(tokens, room, true)?;
            return self.postfix(tokens, room, operand);
        };
        tokens.take();
        if changes(op) {
            self.changed(tokens, room, op)
        } else {
            self.prefixed(tokens, room, op)
        }
    }

    /// An AssignmentExpression (ES3 11.13).
    fn assignment(
        &self,
        tokens: &mut Tokens<'_>,
        room: Room,
        with_in: bool,
    ) -> Result<Boxed<Expr>, Stop>
        requires expressions { nests.Expressions self.now.form self.now.bound
            (E.pre self.now.expression) (E.post self.now.expression) }
        requires functions { nests.Functions self.now.form self.now.bound
            (B.pre self.now.function) (B.post self.now.function) }
        requires within { length tokens.old ≤ self.now.bound }
        ensures reads { Reads self.now.form expr
            (rule.assign (view.room room) with_in) result tokens.old tokens.new }
        ensures shorter { length tokens.new ≤ length tokens.old }
    {
        let left = self.operation(tokens, room, with_in, LEAST_LEVEL)?;
        self.choice(tokens, room, with_in, left)
    }

    /// An Expression, with the operator `,` (ES3 11.14).
    fn comma(&self, tokens: &mut Tokens<'_>, room: Room, with_in: bool) -> Result<Boxed<Expr>, Stop>
        requires expressions { nests.Expressions self.now.form self.now.bound
            (E.pre self.now.expression) (E.post self.now.expression) }
        requires functions { nests.Functions self.now.form self.now.bound
            (B.pre self.now.function) (B.post self.now.function) }
        requires within { length tokens.old ≤ self.now.bound }
        ensures reads { Reads self.now.form expr
            (rule.comma (view.room room) with_in) result tokens.old tokens.new }
        ensures shorter { length tokens.new ≤ length tokens.old }
    {
        let first = self.assignment(tokens, room, with_in)?;
        self.commas(tokens, room, with_in, first)
    }

    /// An Expression that stands directly inside a node.
    pub fn comma_inside(
        &self,
        tokens: &mut Tokens<'_>,
        room: Room,
        with_in: bool,
    ) -> Result<Boxed<Expr>, Stop>
        requires expressions { nests.Expressions self.now.form self.now.bound
            (E.pre self.now.expression) (E.post self.now.expression) }
        requires functions { nests.Functions self.now.form self.now.bound
            (B.pre self.now.function) (B.post self.now.function) }
        requires within { length tokens.old ≤ self.now.bound }
        ensures reads { Reads self.now.form expr
            (rule.comma (rooms.inside (view.room room)) with_in) result tokens.old tokens.new }
        ensures shorter { length tokens.new ≤ length tokens.old }
    {
        self.comma(tokens, room.inside(), with_in)
    }

    /// A part of an expression (ES3 section 11).
    pub fn expression(
        &self,
        tokens: &mut Tokens<'_>,
        room: Room,
        with_in: bool,
        part: Part,
    ) -> Result<Boxed<Expr>, Stop>
        requires expressions { nests.Expressions self.now.form self.now.bound
            (E.pre self.now.expression) (E.post self.now.expression) }
        requires functions { nests.Functions self.now.form self.now.bound
            (B.pre self.now.function) (B.post self.now.function) }
        requires within { length tokens.old ≤ self.now.bound }
        ensures reads { Reads self.now.form expr
            (pieces.part_rule part (view.room room) with_in) result tokens.old tokens.new }
        ensures shorter { length tokens.new ≤ length tokens.old }
    {
        match part {
            Part::Comma => self.comma(tokens, room, with_in),
            Part::Assignment => self.assignment(tokens, room, with_in),
            Part::Operation(least) => self.operation(tokens, room, with_in, least),
            Part::Unary => self.unary(tokens, room),
            Part::Operand(with_calls) => self.operand(tokens, room, with_calls),
        }
    }
}
