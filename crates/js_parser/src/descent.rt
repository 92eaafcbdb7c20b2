//! The descent: each rule is given what reads the expressions, functions and statements in it.

ghost use Rattle.std.specs.Prelude.{◌≤◌, ◌<◌, length};
ghost use Rattle.js_parser.specs.Contexts as contexts;
ghost use Rattle.js_parser.specs.Elements as elements;
ghost use Rattle.js_parser.specs.Machine as rule;
ghost use Rattle.js_parser.specs.Pieces as pieces;
ghost use Rattle.js_parser.specs.Reads.{Reads};
ghost use Rattle.js_parser.specs.Rooms as rooms;
ghost use Rattle.js_parser.specs.View as view;
ghost use Rattle.js_tree.specs.Plain as plain;

use crate::context::Context;
use crate::form::{Form, Limits};
use crate::part::Part;
use crate::rooms::Room;
use crate::rules::Rules;
use crate::statements::Statements;
use crate::stop::Stop;
use crate::tokens::Tokens;
use dl_text::Units;
use js_tree::{Boxed, Expr, Func, Stmt};
use std::alloc::Global;

/// A part of an expression (ES3 section 11).
#[cycle(descent)]
pub fn expression(
    alloc: Global,
    tokens: &mut Tokens<'_>,
    form: Form,
    room: Room,
    with_in: bool,
    part: Part,
) -> Result<Boxed<Expr>, Stop>
    ensures reads { Reads form plain.expr (pieces.part_rule part (view.room room) with_in) result
        tokens.old tokens.new }
    ensures shorter { length tokens.new ≤ length tokens.old }
{
    let rules = Rules {
        alloc,
        form,
        bound: tokens.len(),
        expression,
        function,
    };
    rules.expression(tokens, room, with_in, part)
}

/// A function behind its name (ES3 section 13).
#[cycle(descent)]
pub fn function(
    alloc: Global,
    tokens: &mut Tokens<'_>,
    form: Form,
    room: Room,
    name: Option<Units>,
) -> Result<Boxed<Func>, Stop>
    ensures reads { Reads form plain.func (pieces.function_rule name (view.room room)) result
        tokens.old tokens.new }
    ensures shorter { length tokens.new ≤ length tokens.old }
{
    let rules = Rules {
        alloc,
        form,
        bound: tokens.len(),
        expression,
        function,
    };
    Statements { rules, statement }.function(tokens, room, name)
}

/// A statement (ES3 section 12).
#[cycle(descent)]
pub fn statement(
    alloc: Global,
    tokens: &mut Tokens<'_>,
    form: Form,
    room: Room,
    context: &Context,
) -> Result<Boxed<Stmt>, Stop>
    ensures reads { Reads form plain.stmt
        (rule.statement (view.room room) (view.context context.now)) result tokens.old tokens.new }
    ensures shorter { length tokens.new ≤ length tokens.old }
{
    let rules = Rules {
        alloc,
        form,
        bound: tokens.len(),
        expression,
        function,
    };
    Statements { rules, statement }.statement(tokens, room, context)
}

/// A statement or a function declaration of a script, where a token is left (ES3 section 14).
pub fn element(
    alloc: Global,
    tokens: &mut Tokens<'_>,
    form: Form,
    limits: &Limits,
) -> Result<Boxed<Stmt>, Stop>
    requires some { 0 < length tokens.old }
    ensures reads { Reads form plain.stmt
        (elements.element form (rooms.of_limits limits.now) contexts.script) result tokens.old
        tokens.new }
    ensures shorter { length tokens.new ≤ length tokens.old }
{
    let rules = Rules {
        alloc,
        form,
        bound: tokens.len() + 1,
        expression,
        function,
    };
    let context = Context::script(alloc);
    let statements = Statements { rules, statement };
    statements.element(tokens, Room::of_limits(limits), &context)
}
