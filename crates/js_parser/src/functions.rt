//! Functions behind their names (ES3 section 13).

ghost use Rattle.std.specs.Prelude.{◌≡◌, ◌≤◌, ◌<◌, [], true, length, IfOk};
ghost use Rattle.js_parser.specs.Contexts as contexts;
ghost use Rattle.js_parser.specs.Machine as rule;
ghost use Rattle.js_parser.specs.Names.{is_distinct};
ghost use Rattle.js_parser.specs.Nests as nests;
ghost use Rattle.js_parser.specs.Pieces as pieces;
ghost use Rattle.js_parser.specs.Reads.{Reads};
ghost use Rattle.js_parser.specs.StatementPieces as parts;
ghost use Rattle.js_parser.specs.View as view;
ghost use Rattle.js_tree.specs.Plain as plain;

use crate::context::Context;
use crate::form::Form;
use crate::part::Part;
use crate::rooms::Room;
use crate::statements::Statements;
use crate::stop::Stop;
use crate::tokens::Tokens;
use crate::{names, tree_lists};
use dl_text::{Listed, Names, Units};
use js_tree::{Boxed, Expr, Func, Stmt, Stmts};
use std::alloc::Global;

/// One more formal, behind these.
fn with_formal(
    alloc: Global,
    form: Form,
    tokens: &mut Tokens<'_>,
    before: Names,
) -> Result<Names, Stop>
    requires { is_distinct before ≡ true }
    ensures reads { Reads form (λ names. names) (parts.with_formal form before) result tokens.old
        tokens.new }
    ensures distinct { IfOk result (λ names. is_distinct names ≡ true) }
    ensures shorter { length tokens.new ≤ length tokens.old }
{
    let Some(name) = tokens.name() else {
        return Err(Stop::Broken);
    };
    if !names::is_binding(form, name) {
        return Err(Stop::Broken);
    }
    if names::is_among(name, before.items()) {
        return Err(Stop::Broken);
    }
    tokens.take();
    tree_lists::with_name(alloc, before, name)
}

/// Formals with commas between, one at least.
fn some_formals(alloc: Global, form: Form, tokens: &mut Tokens<'_>) -> Result<Names, Stop>
    ensures reads { Reads form (λ names. names) (parts.some_formals form) result tokens.old
        tokens.new }
    ensures shorter { length tokens.new ≤ length tokens.old }
{
    let none = Names::new(alloc);
    let mut names = with_formal(alloc, form, tokens, none)?;
    'formals: while tokens.at_comma() {
        tokens.take();
        names = with_formal(alloc, form, tokens, names)?;
    }
    if !tokens.at_any() {
        return Err(Stop::Broken);
    }
    Ok(names)
}

/// The formals of a function, of which none repeats another.
fn formals(alloc: Global, form: Form, tokens: &mut Tokens<'_>) -> Result<Names, Stop>
    ensures reads { Reads form (λ names. names) (rule.formals []) result tokens.old tokens.new }
    ensures shorter { length tokens.new ≤ length tokens.old }
{
    if tokens.at_name() {
        return some_formals(alloc, form, tokens);
    }
    if !tokens.at_any() {
        return Err(Stop::Broken);
    }
    Ok(Names::new(alloc))
}

impl<
    E: Fn(Global, &mut Tokens<'_>, Form, Room, bool, Part) -> Result<Boxed<Expr>, Stop>,
    B: Fn(Global, &mut Tokens<'_>, Form, Room, Option<Units>) -> Result<Boxed<Func>, Stop>,
    S: Fn(Global, &mut Tokens<'_>, Form, Room, &Context) -> Result<Boxed<Stmt>, Stop>,
> Statements<E, B, S> {
    /// The statements of a function.
    fn body(&self, tokens: &mut Tokens<'_>, room: Room) -> Result<Stmts, Stop>
        requires functions { nests.Functions self.now.rules.form self.now.rules.bound
            (B.pre self.now.rules.function) (B.post self.now.rules.function) }
        requires statements { nests.Statements self.now.rules.form self.now.rules.bound
            (S.pre self.now.statement) (S.post self.now.statement) }
        requires within { length tokens.old < self.now.rules.bound }
        ensures reads { Reads self.now.rules.form plain.body
            (rule.source (view.room room) contexts.function) result tokens.old tokens.new }
        ensures shorter { length tokens.new ≤ length tokens.old }
    {
        let context = Context::function(self.rules.alloc);
        self.source(tokens, room, &context)
    }

    /// A function behind its name, in the room inside it.
    pub fn function(
        &self,
        tokens: &mut Tokens<'_>,
        room: Room,
        name: Option<Units>,
    ) -> Result<Boxed<Func>, Stop>
        requires functions { nests.Functions self.now.rules.form self.now.rules.bound
            (B.pre self.now.rules.function) (B.post self.now.rules.function) }
        requires statements { nests.Statements self.now.rules.form self.now.rules.bound
            (S.pre self.now.statement) (S.post self.now.statement) }
        requires within { length tokens.old ≤ self.now.rules.bound }
        ensures reads { Reads self.now.rules.form plain.func
            (pieces.function_rule name (view.room room)) result tokens.old tokens.new }
        ensures shorter { length tokens.new ≤ length tokens.old }
    {
        if !tokens.at_open_parenthesis() {
            return Err(Stop::Broken);
        }
        tokens.take();
        let formals = formals(self.rules.alloc, self.rules.form, tokens)?;
        tokens.close_parenthesis()?;
        tokens.open_brace()?;
        let body = self.body(tokens, room)?;
        tokens.close_brace()?;
        tree_lists::function(self.rules.alloc, name, formals, body)
    }
}
