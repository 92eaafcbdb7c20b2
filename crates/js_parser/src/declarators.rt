//! Names that are bound, declarators (ES3 12.2), and expressions that may be absent (ES3 12.6.3).

ghost use Rattle.std.specs.Prelude.{◌≤◌, ◌<◌, length};
ghost use Rattle.js_parser.specs.ListViews.{maybe_expr, var_item, var_parts, var_items};
ghost use Rattle.js_parser.specs.Machine as rule;
ghost use Rattle.js_parser.specs.Nests as nests;
ghost use Rattle.js_parser.specs.Reads.{Reads};
ghost use Rattle.js_parser.specs.StatementPieces as pieces;
ghost use Rattle.js_parser.specs.View as view;

use crate::form::Form;
use crate::part::Part;
use crate::rooms::Room;
use crate::rules::Rules;
use crate::stop::Stop;
use crate::tokens::Tokens;
use crate::{names, tree_lists};
use dl_text::Units;
use js_tree::{Boxed, Expr, Func, VarItem, VarItems};
use std::alloc::Global;

/// Passes a name that may be bound, and gives it.
pub fn binding(alloc: Global, form: Form, tokens: &mut Tokens<'_>) -> Result<Units, Stop>
    ensures reads { Reads form (λ name. name) (pieces.binding form) result tokens.old tokens.new }
    ensures shorter { length tokens.new ≤ length tokens.old }
{
    let Some(name) = tokens.name() else {
        return Err(Stop::Broken);
    };
    if !names::is_binding(form, name) {
        return Err(Stop::Broken);
    }
    tokens.take();
    names::share(alloc, name)
}

impl<
    E: Fn(Global, &mut Tokens<'_>, Form, Room, bool, Part) -> Result<Boxed<Expr>, Stop>,
    B: Fn(Global, &mut Tokens<'_>, Form, Room, Option<Units>) -> Result<Boxed<Func>, Stop>,
> Rules<E, B> {
    /// The value that a declarator gives, if it gives one (ES3 12.2).
    fn initial_value(
        &self,
        tokens: &mut Tokens<'_>,
        room: Room,
        with_in: bool,
    ) -> Result<Option<Boxed<Expr>>, Stop>
        requires expressions { nests.Expressions self.now.form self.now.bound
            (E.pre self.now.expression) (E.post self.now.expression) }
        requires within { length tokens.old ≤ self.now.bound }
        ensures reads { Reads self.now.form maybe_expr
            (pieces.initial_value (view.room room) with_in) result tokens.old tokens.new }
        ensures shorter { length tokens.new ≤ length tokens.old }
    {
        if !tokens.at_assign() {
            return Ok(None);
        }
        tokens.take();
        let value = self.part(tokens, room, with_in, Part::Assignment)?;
        Ok(Some(value))
    }

    /// A declarator (ES3 12.2).
    pub fn declarator(
        &self,
        tokens: &mut Tokens<'_>,
        room: Room,
        with_in: bool,
    ) -> Result<Boxed<VarItem>, Stop>
        requires expressions { nests.Expressions self.now.form self.now.bound
            (E.pre self.now.expression) (E.post self.now.expression) }
        requires within { length tokens.old ≤ self.now.bound }
        ensures reads { Reads self.now.form var_item
            (pieces.declarator (view.room room) with_in) result tokens.old tokens.new }
        ensures shorter { length tokens.new ≤ length tokens.old }
    {
        let name = binding(self.alloc, self.form, tokens)?;
        let value = self.initial_value(tokens, room, with_in)?;
        tree_lists::declarator(self.alloc, name, value)
    }

    /// One more declarator, behind these.
    fn and_declarator(
        &self,
        tokens: &mut Tokens<'_>,
        room: Room,
        with_in: bool,
        before: VarItems,
    ) -> Result<VarItems, Stop>
        requires expressions { nests.Expressions self.now.form self.now.bound
            (E.pre self.now.expression) (E.post self.now.expression) }
        requires within { length tokens.old ≤ self.now.bound }
        ensures reads { Reads self.now.form var_parts
            (pieces.and_declarator (view.room room) with_in (var_parts before)) result tokens.old
            tokens.new }
        ensures shorter { length tokens.new ≤ length tokens.old }
    {
        let item = self.declarator(tokens, room, with_in)?;
        tree_lists::with_declarator(before, item)
    }

    /// Declarators with commas between, one at least (ES3 12.2).
    pub fn declarators(
        &self,
        tokens: &mut Tokens<'_>,
        room: Room,
        with_in: bool,
    ) -> Result<VarItems, Stop>
        requires expressions { nests.Expressions self.now.form self.now.bound
            (E.pre self.now.expression) (E.post self.now.expression) }
        requires within { length tokens.old ≤ self.now.bound }
        ensures reads { Reads self.now.form var_items
            (rule.declarators (view.room room) with_in) result tokens.old tokens.new }
        ensures shorter { length tokens.new ≤ length tokens.old }
    {
        let none = VarItems::new(self.alloc);
        let mut items = self.and_declarator(tokens, room, with_in, none)?;
        'declarators: while tokens.at_comma() {
            tokens.take();
            items = self.and_declarator(tokens, room, with_in, items)?;
        }
        Ok(items)
    }

    /// An expression that may be absent (ES3 12.6.3).
    pub fn optional(&self, tokens: &mut Tokens<'_>, room: Room) -> Result<Option<Boxed<Expr>>, Stop>
        requires expressions { nests.Expressions self.now.form self.now.bound
            (E.pre self.now.expression) (E.post self.now.expression) }
        requires within { length tokens.old < self.now.bound }
        ensures reads { Reads self.now.form maybe_expr (rule.optional (view.room room)) result
            tokens.old tokens.new }
        ensures shorter { length tokens.new ≤ length tokens.old }
    {
        if !tokens.at_any() {
            return Err(Stop::Broken);
        }
        if tokens.ends_optional() {
            return Ok(None);
        }
        let value = self.part(tokens, room, true, Part::Comma)?;
        Ok(Some(value))
    }
}
