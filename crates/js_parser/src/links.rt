//! What is linked to operands: names, properties and arguments (ES3 11.2).

ghost use Rattle.std.specs.Prelude.{◌≤◌, ◌<◌, length};
ghost use Rattle.js_parser.specs.ExpressionLists as lists;
ghost use Rattle.js_parser.specs.Machine as rule;
ghost use Rattle.js_parser.specs.Nests as nests;
ghost use Rattle.js_parser.specs.Pieces as pieces;
ghost use Rattle.js_parser.specs.Reads.{Reads};
ghost use Rattle.js_parser.specs.Rooms as rooms;
ghost use Rattle.js_parser.specs.View as view;
ghost use Rattle.js_tree.specs.Plain.{expr};

use crate::form::Form;
use crate::link::{Link, link_at};
use crate::part::Part;
use crate::rooms::Room;
use crate::rules::Rules;
use crate::stop::Stop;
use crate::tokens::Tokens;
use crate::{names, nodes};
use dl_text::Units;
use js_tree::{Boxed, Expr, Exprs, Func};
use std::alloc::Global;

impl<
    E: Fn(Global, &mut Tokens<'_>, Form, Room, bool, Part) -> Result<Boxed<Expr>, Stop>,
    B: Fn(Global, &mut Tokens<'_>, Form, Room, Option<Units>) -> Result<Boxed<Func>, Stop>,
> Rules<E, B> {
    /// What is linked to an operand, one behind the other (ES3 11.2).
    pub fn links(
        &self,
        tokens: &mut Tokens<'_>,
        room: Room,
        with_calls: bool,
        first: Boxed<Expr>,
    ) -> Result<Boxed<Expr>, Stop>
        requires expressions { nests.Expressions self.now.form self.now.bound
            (E.pre self.now.expression) (E.post self.now.expression) }
        requires within { length tokens.old ≤ self.now.bound }
        ensures reads { Reads self.now.form expr
            (rule.links (view.room room) with_calls (expr first)) result tokens.old tokens.new }
        ensures shorter { length tokens.new ≤ length tokens.old }
    {
        let mut operand = first;
        'links: while let Some(link) = link_at(tokens, with_calls) {
            tokens.take();
            operand = self.linked(tokens, room, link, operand)?;
        }
        Ok(operand)
    }

    /// Behind the token that begins a link (ES3 11.2).
    fn linked(
        &self,
        tokens: &mut Tokens<'_>,
        room: Room,
        link: Link,
        operand: Boxed<Expr>,
    ) -> Result<Boxed<Expr>, Stop>
        requires expressions { nests.Expressions self.now.form self.now.bound
            (E.pre self.now.expression) (E.post self.now.expression) }
        requires within { length tokens.old < self.now.bound }
        ensures reads { Reads self.now.form expr
            (pieces.linked self.now.form link (view.room room) (expr operand)) result tokens.old
            tokens.new }
        ensures shorter { length tokens.new ≤ length tokens.old }
    {
        match link {
            Link::Dot => self.dot(tokens, room, operand),
            Link::Index => self.index(tokens, room, operand),
            Link::Call => self.call(tokens, room, operand),
        }
    }

    /// Behind a dot (ES3 11.2.1).
    fn dot(
        &self,
        tokens: &mut Tokens<'_>,
        room: Room,
        object: Boxed<Expr>,
    ) -> Result<Boxed<Expr>, Stop>
        ensures reads { Reads self.now.form expr
            (pieces.dot self.now.form (view.room room) (expr object)) result tokens.old
            tokens.new }
        ensures shorter { length tokens.new ≤ length tokens.old }
    {
        if !room.fits_around(&object) {
            return Err(Stop::Deep);
        }
        let name = self.property(tokens)?;
        nodes::dot(self.alloc, object, name)
    }

    /// The name behind a dot (ES3 11.2.1).
    fn property(&self, tokens: &mut Tokens<'_>) -> Result<Units, Stop>
        ensures reads { Reads self.now.form (λ name. name) (pieces.property self.now.form) result
            tokens.old tokens.new }
        ensures shorter { length tokens.new ≤ length tokens.old }
    {
        let Some(name) = tokens.name() else {
            return Err(Stop::Broken);
        };
        if !names::is_property(self.form, name) {
            return Err(Stop::Broken);
        }
        tokens.take();
        names::share(self.alloc, name)
    }

    /// Behind the `[` of a property (ES3 11.2.1).
    fn index(
        &self,
        tokens: &mut Tokens<'_>,
        room: Room,
        object: Boxed<Expr>,
    ) -> Result<Boxed<Expr>, Stop>
        requires expressions { nests.Expressions self.now.form self.now.bound
            (E.pre self.now.expression) (E.post self.now.expression) }
        requires within { length tokens.old < self.now.bound }
        ensures reads { Reads self.now.form expr
            (pieces.index (view.room room) (expr object)) result tokens.old tokens.new }
        ensures shorter { length tokens.new ≤ length tokens.old }
    {
        if !room.fits_around(&object) {
            return Err(Stop::Deep);
        }
        let key = self.inside(tokens, room, true, Part::Comma)?;
        tokens.close_bracket()?;
        nodes::index(self.alloc, object, key)
    }

    /// Behind the `(` of a call (ES3 11.2.3).
    fn call(
        &self,
        tokens: &mut Tokens<'_>,
        room: Room,
        callee: Boxed<Expr>,
    ) -> Result<Boxed<Expr>, Stop>
        requires expressions { nests.Expressions self.now.form self.now.bound
            (E.pre self.now.expression) (E.post self.now.expression) }
        requires within { length tokens.old < self.now.bound }
        ensures reads { Reads self.now.form expr
            (pieces.call (view.room room) (expr callee)) result tokens.old tokens.new }
        ensures shorter { length tokens.new ≤ length tokens.old }
    {
        if !room.fits_around(&callee) {
            return Err(Stop::Deep);
        }
        let arguments = self.arguments(tokens, room)?;
        tokens.close_parenthesis()?;
        nodes::call(self.alloc, callee, arguments)
    }

    /// Arguments behind their `(`, inside a node (ES3 11.2.4).
    pub fn arguments(&self, tokens: &mut Tokens<'_>, room: Room) -> Result<Exprs, Stop>
        requires expressions { nests.Expressions self.now.form self.now.bound
            (E.pre self.now.expression) (E.post self.now.expression) }
        requires within { length tokens.old < self.now.bound }
        ensures reads { Reads self.now.form lists.exprs
            (rule.arguments (rooms.inside (view.room room))) result tokens.old tokens.new }
        ensures shorter { length tokens.new ≤ length tokens.old }
    {
        if tokens.are_over() {
            return Err(Stop::Broken);
        }
        if tokens.at_close_parenthesis() {
            return Ok(Exprs::new(self.alloc));
        }
        self.argument_list(tokens, room)
    }

    /// Arguments, one at least, inside a node (ES3 11.2.4).
    fn argument_list(&self, tokens: &mut Tokens<'_>, room: Room) -> Result<Exprs, Stop>
        requires expressions { nests.Expressions self.now.form self.now.bound
            (E.pre self.now.expression) (E.post self.now.expression) }
        requires within { length tokens.old < self.now.bound }
        ensures reads { Reads self.now.form lists.exprs
            (rule.argument_list (rooms.inside (view.room room))) result tokens.old tokens.new }
        ensures shorter { length tokens.new ≤ length tokens.old }
    {
        let mut arguments = Exprs::new(self.alloc);
        'arguments: loop {
            let argument = self.inside(tokens, room, true, Part::Assignment)?;
            nodes::push_argument(&mut arguments, argument)?;
            let more = tokens.separator()?;
            if !more {
                return Ok(arguments);
            }
        }
    }
}
