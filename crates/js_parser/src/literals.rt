//! Array and object literals (ES3 11.1.4 and 11.1.5).

ghost use Rattle.std.specs.Prelude.{◌≡◌, ◌≤◌, ◌<◌, length, IfOk, IfErr};
ghost use Rattle.js_parser.specs.ExpressionLists as lists;
ghost use Rattle.js_parser.specs.Machine as rule;
ghost use Rattle.js_parser.specs.Nests as nests;
ghost use Rattle.js_parser.specs.Pieces as pieces;
ghost use Rattle.js_parser.specs.Reads.{Reads};
ghost use Rattle.js_parser.specs.Rooms as rooms;
ghost use Rattle.js_parser.specs.View as view;
ghost use Rattle.js_parser.specs.declared.stop.Stop.TheVariants.{OutOfMemory};
ghost use Rattle.js_tree.specs.Plain.{expr};

use crate::form::Form;
use crate::part::Part;
use crate::rooms::Room;
use crate::rules::Rules;
use crate::stop::Stop;
use crate::tokens::Tokens;
use crate::{names, nodes};
use dl_text::Units;
use js_tree::{Boxed, Elements, Expr, Func, Pairs};
use std::alloc::Global;

impl<
    E: Fn(Global, &mut Tokens<'_>, Form, Room, bool, Part) -> Result<Boxed<Expr>, Stop>,
    B: Fn(Global, &mut Tokens<'_>, Form, Room, Option<Units>) -> Result<Boxed<Func>, Stop>,
> Rules<E, B> {
    /// Behind the `[` of an array literal (ES3 11.1.4).
    pub fn array(&self, tokens: &mut Tokens<'_>, room: Room) -> Result<Boxed<Expr>, Stop>
        requires expressions { nests.Expressions self.now.form self.now.bound
            (E.pre self.now.expression) (E.post self.now.expression) }
        requires within { length tokens.old < self.now.bound }
        ensures reads { Reads self.now.form expr (pieces.array (view.room room)) result tokens.old
            tokens.new }
        ensures shorter { length tokens.new ≤ length tokens.old }
    {
        if !room.fits_node() {
            return Err(Stop::Deep);
        }
        let elements = self.elements(tokens, room)?;
        tokens.close_bracket()?;
        nodes::array(self.alloc, elements)
    }

    /// Behind the `{` of an object literal (ES3 11.1.5).
    pub fn object(&self, tokens: &mut Tokens<'_>, room: Room) -> Result<Boxed<Expr>, Stop>
        requires expressions { nests.Expressions self.now.form self.now.bound
            (E.pre self.now.expression) (E.post self.now.expression) }
        requires within { length tokens.old < self.now.bound }
        ensures reads { Reads self.now.form expr (pieces.object (view.room room)) result tokens.old
            tokens.new }
        ensures shorter { length tokens.new ≤ length tokens.old }
    {
        if !room.fits_node() {
            return Err(Stop::Deep);
        }
        let pairs = self.pairs(tokens, room)?;
        tokens.close_brace()?;
        nodes::object(self.alloc, pairs)
    }

    /// The elements of an array literal, with its holes, inside the node (ES3 11.1.4).
    fn elements(&self, tokens: &mut Tokens<'_>, room: Room) -> Result<Elements, Stop>
        requires expressions { nests.Expressions self.now.form self.now.bound
            (E.pre self.now.expression) (E.post self.now.expression) }
        requires within { length tokens.old < self.now.bound }
        ensures reads { Reads self.now.form lists.elements
            (rule.elements (rooms.inside (view.room room))) result tokens.old tokens.new }
        ensures shorter { length tokens.new ≤ length tokens.old }
    {
        let mut elements = Elements::new(self.alloc);
        'elements: loop {
            if tokens.are_over() {
                return Err(Stop::Broken);
            }
            if tokens.at_close_bracket() {
                return Ok(elements);
            }
            if tokens.at_comma() {
                tokens.take();
                nodes::push_hole(&mut elements)?;
                continue 'elements;
            }
            let element = self.inside(tokens, room, true, Part::Assignment)?;
            nodes::push_element(&mut elements, element)?;
            let more = tokens.separator()?;
            if !more {
                return Ok(elements);
            }
        }
    }

    /// The keys of an object literal with their values, inside the node (ES3 11.1.5).
    fn pairs(&self, tokens: &mut Tokens<'_>, room: Room) -> Result<Pairs, Stop>
        requires expressions { nests.Expressions self.now.form self.now.bound
            (E.pre self.now.expression) (E.post self.now.expression) }
        requires within { length tokens.old < self.now.bound }
        ensures reads { Reads self.now.form lists.pairs
            (rule.pairs (rooms.inside (view.room room))) result tokens.old tokens.new }
        ensures shorter { length tokens.new ≤ length tokens.old }
    {
        let mut pairs = Pairs::new(self.alloc);
        'pairs: loop {
            if tokens.are_over() {
                return Err(Stop::Broken);
            }
            let Some(key) = self.key(tokens)? else {
                return Ok(pairs);
            };
            tokens.take();
            tokens.colon()?;
            let value = self.inside(tokens, room, true, Part::Assignment)?;
            nodes::push_pair(&mut pairs, key, value)?;
            let more = tokens.separator()?;
            if !more {
                return Ok(pairs);
            }
        }
    }

    /// The key that the next token gives, if it gives one (ES3 11.1.5).
    fn key(&self, tokens: &Tokens<'_>) -> Result<Option<Units>, Stop>
        ensures ok { IfOk result (λ key. key ≡ pieces.key_at self.now.form tokens.now) }
        ensures err { IfErr result (λ error. error ≡ OutOfMemory) }
    {
        match tokens.front() {
            Some(token) => names::key_of(self.alloc, self.form, &token.kind),
            None => Ok(None),
        }
    }
}
