//! Expressions (ES3 section 11). Each function writes its part of the tree, and its contract says
//! which tokens these are.

#![tactic(auto, using(crate::proofs::Writing::all_written_append))]

ghost use Rattle.std.specs.Prelude.{◌≡◌, ◌++◌, ◌∷◌, [], true, OnOk};
ghost use Rattle.js_lexer.specs.declared.mark.Mark.TheVariants as m;
ghost use Rattle.js_lexer.specs.declared.token.TokenKind.TheVariants as k;
ghost use Rattle.js_lexer.specs.declared.word.Word.TheVariants as w;
ghost use Rattle.js_tree.specs.Plain as view;
ghost use Rattle.js_tree.specs.Tree as plain;
ghost use Rattle.js_printer.specs.Parts as parts;
ghost use Rattle.js_printer.specs.Printed as printed;
ghost use Rattle.js_printer.specs.Written.{all_written};

use crate::functions::write_func;
use crate::operands::{
    AND, ASSIGNMENT, CALL, COMMA, OR, has_call, is_function, is_number, needs, operation_level,
    prefix_least, right_level,
};
use crate::signs::{assignment_mark, write_operation, write_postfix, write_prefix};
use crate::writer::Printer;
use dl_text::{Listed, Units};
use js_lexer::{Mark, Word};
use js_tree::{Boxed, Elements, Expr, Exprs, Pair, Pairs};
use std::alloc::AllocError;

/// An expression without parentheses around it, where the operator `in` may stand or not.
#[cycle(print)]
#[tactic(auto, using(crate::proofs::Views::expression_parts))]
pub fn write_expr(printer: &mut Printer, expr: &Expr, with_in: bool) -> Result<(), AllocError>
    ensures { OnOk result (printer.new ≡ all_written printer.old (parts.expr expr.now with_in)) }
{
    match expr {
        Expr::Num(number) => printer.number(*number),
        Expr::Str(text) => printer.string(text),
        Expr::Bool(value) => printer.truth(*value),
        Expr::Null => printer.word(Word::Null),
        Expr::This => printer.word(Word::This),
        Expr::Name(name) => printer.name(name),
        Expr::Array(elements) => write_array(printer, elements),
        Expr::Object(pairs) => write_object(printer, pairs),
        Expr::Func(func) => write_func(printer, func.get()),
        Expr::Dot(object, name) => write_dot(printer, object, name, with_in),
        Expr::Index(object, key) => {
            write_callee(printer, object.get(), with_in)?;
            write_key(printer, key.get())?;
            Ok(())
        }
        Expr::Call(callee, arguments) => {
            write_callee(printer, callee.get(), with_in)?;
            write_arguments(printer, arguments)?;
            Ok(())
        }
        Expr::New(callee, arguments) => {
            write_constructor(printer, callee.get(), with_in)?;
            write_arguments(printer, arguments)?;
            Ok(())
        }
        Expr::Postfix(target, op) => {
            write_operand(printer, target.get(), CALL, with_in)?;
            write_postfix(printer, *op)?;
            Ok(())
        }
        Expr::Prefix(op, operand) => {
            write_prefix(printer, *op)?;
            write_operand(printer, operand.get(), prefix_least(*op), with_in)?;
            Ok(())
        }
        Expr::Binary(op, left, right) => {
            write_operand(printer, left.get(), operation_level(*op), with_in)?;
            write_operation(printer, *op)?;
            write_operand(printer, right.get(), right_level(*op), with_in)?;
            Ok(())
        }
        Expr::And(left, right) => {
            write_operand(printer, left.get(), AND, with_in)?;
            write_behind(printer, Mark::And, right.get(), AND + 1, with_in)?;
            Ok(())
        }
        Expr::Or(left, right) => {
            write_operand(printer, left.get(), OR, with_in)?;
            write_behind(printer, Mark::Or, right.get(), AND, with_in)?;
            Ok(())
        }
        Expr::Comma(left, right) => {
            write_operand(printer, left.get(), COMMA, with_in)?;
            write_behind(printer, Mark::Comma, right.get(), ASSIGNMENT, with_in)?;
            Ok(())
        }
        Expr::Cond(test, middle, other) => {
            write_operand(printer, test.get(), OR, with_in)?;
            write_behind(printer, Mark::Question, middle.get(), ASSIGNMENT, with_in)?;
            write_behind(printer, Mark::Colon, other.get(), ASSIGNMENT, with_in)?;
            Ok(())
        }
        Expr::Assign(op, target, value) => {
            write_operand(printer, target.get(), CALL, with_in)?;
            write_behind(
                printer,
                assignment_mark(*op),
                value.get(),
                ASSIGNMENT,
                with_in,
            )?;
            Ok(())
        }
        Expr::Late(entry) => printer.late(*entry),
    }
}

/// An operand whose place needs this level, in parentheses where it is below.
#[cycle(print)]
pub fn write_operand(
    printer: &mut Printer,
    expr: &Expr,
    least: u8,
    with_in: bool,
) -> Result<(), AllocError>
    ensures { OnOk result
        (printer.new ≡ all_written printer.old (parts.operand with_in least expr.now)) }
{
    write_operand_for(printer, false, expr, least, with_in)
}

/// An operand that is in parentheses for a reason of its place too.
#[cycle(print)]
fn write_operand_for(
    printer: &mut Printer,
    reason: bool,
    expr: &Expr,
    least: u8,
    with_in: bool,
) -> Result<(), AllocError>
    ensures { OnOk result
        (printer.new ≡ all_written printer.old (parts.operand_for reason with_in least expr.now)) }
{
    if reason || needs(expr, least, with_in) {
        write_enclosed(printer, expr)
    } else {
        write_expr(printer, expr, with_in)
    }
}

/// An expression in parentheses.
#[cycle(print)]
pub fn write_enclosed(printer: &mut Printer, expr: &Expr) -> Result<(), AllocError>
    ensures { OnOk result
        (printer.new ≡ all_written printer.old (printed.enclosed (parts.expr expr.now true))) }
{
    printer.mark(Mark::OpenParenthesis)?;
    write_expr(printer, expr, true)?;
    printer.mark(Mark::CloseParenthesis)
}

/// An operand behind a mark.
#[cycle(print)]
fn write_behind(
    printer: &mut Printer,
    mark: Mark,
    expr: &Expr,
    least: u8,
    with_in: bool,
) -> Result<(), AllocError>
    ensures { OnOk result (printer.new
        ≡ all_written printer.old (k.Mark mark ∷ parts.operand with_in least expr.now)) }
{
    printer.mark(mark)?;
    write_operand(printer, expr, least, with_in)
}

/// A property by its name (ES3 11.2.1).
#[cycle(print)]
fn write_dot(
    printer: &mut Printer,
    object: &Boxed<Expr>,
    name: &Units,
    with_in: bool,
) -> Result<(), AllocError>
    ensures { OnOk result (printer.new ≡ all_written printer.old
        (printed.expr (plain.Dot (view.expr object.now) name.now) with_in)) }
{
    let object = object.get();
    let reason = is_number(object) || is_function(object);
    write_operand_for(printer, reason, object, CALL, with_in)?;
    printer.mark(Mark::Dot)?;
    printer.name(name)
}

/// A computed key in its brackets (ES3 11.2.1).
#[cycle(print)]
fn write_key(printer: &mut Printer, key: &Expr) -> Result<(), AllocError>
    ensures { OnOk result (printer.new ≡ all_written printer.old
        (k.Mark m.OpenBracket ∷ (parts.operand true 1 key.now ++ (k.Mark m.CloseBracket ∷ [])))) }
{
    printer.mark(Mark::OpenBracket)?;
    write_operand(printer, key, COMMA, true)?;
    printer.mark(Mark::CloseBracket)
}

/// The object of a computed key, or what is called (ES3 11.2.1 and 11.2.3).
#[cycle(print)]
fn write_callee(printer: &mut Printer, callee: &Expr, with_in: bool) -> Result<(), AllocError>
    ensures { OnOk result (printer.new ≡ all_written printer.old
        (parts.operand_for (parts.is_function callee.now) with_in 16 callee.now)) }
{
    write_operand_for(printer, is_function(callee), callee, CALL, with_in)
}

/// What `new` is given (ES3 11.2.2).
#[cycle(print)]
fn write_constructor(printer: &mut Printer, callee: &Expr, with_in: bool) -> Result<(), AllocError>
    ensures { OnOk result (printer.new ≡ all_written printer.old (k.Word w.New
        ∷ parts.operand_for (parts.is_constructor callee.now) with_in 16 callee.now)) }
{
    printer.word(Word::New)?;
    write_operand_for(
        printer,
        is_function(callee) || has_call(callee),
        callee,
        CALL,
        with_in,
    )
}

/// Arguments in their parentheses (ES3 11.2.4).
#[cycle(print)]
fn write_arguments(printer: &mut Printer, arguments: &Exprs) -> Result<(), AllocError>
    ensures { OnOk result
        (printer.new ≡ all_written printer.old (printed.enclosed (parts.exprs arguments.now))) }
{
    printer.mark(Mark::OpenParenthesis)?;
    write_exprs(printer, arguments)?;
    printer.mark(Mark::CloseParenthesis)
}

/// Arguments with commas between.
#[cycle(print)]
fn write_exprs(printer: &mut Printer, exprs: &Exprs) -> Result<(), AllocError>
    ensures { OnOk result (printer.new ≡ all_written printer.old (parts.exprs exprs.now)) }
{
    let mut is_behind = false;
    for expr in exprs.items() {
        printer.comma(is_behind)?;
        write_operand(printer, expr, ASSIGNMENT, true)?;
        is_behind = true;
    }
    Ok(())
}

/// An array literal (ES3 11.1.4). A hole has its comma itself, also where it is the last.
#[cycle(print)]
fn write_array(printer: &mut Printer, elements: &Elements) -> Result<(), AllocError>
    ensures { OnOk result (printer.new ≡ all_written printer.old
        (k.Mark m.OpenBracket ∷ (parts.elements elements.now ++ (k.Mark m.CloseBracket ∷ [])))) }
{
    printer.mark(Mark::OpenBracket)?;
    write_elements(printer, elements)?;
    printer.mark(Mark::CloseBracket)
}

/// Elements with commas between, and one more where the last is a hole.
#[cycle(print)]
fn write_elements(printer: &mut Printer, elements: &Elements) -> Result<(), AllocError>
    ensures { OnOk result (printer.new ≡ all_written printer.old (parts.elements elements.now)) }
{
    let mut is_behind = false;
    for element in elements.items() {
        printer.comma(is_behind)?;
        // The match stands here, since a call on `element` has no measure that the check finds.
        match element {
            None => {
                printer.mark(Mark::Comma)?;
                is_behind = false;
            }
            Some(expr) => {
                write_operand(printer, expr, ASSIGNMENT, true)?;
                is_behind = true;
            }
        }
    }
    Ok(())
}

/// An object literal (ES3 11.1.5).
#[cycle(print)]
fn write_object(printer: &mut Printer, pairs: &Pairs) -> Result<(), AllocError>
    ensures { OnOk result (printer.new ≡ all_written printer.old
        (k.Mark m.OpenBrace ∷ (parts.pairs pairs.now ++ (k.Mark m.CloseBrace ∷ [])))) }
{
    printer.mark(Mark::OpenBrace)?;
    write_pairs(printer, pairs)?;
    printer.mark(Mark::CloseBrace)
}

/// A key and its value.
#[cycle(print)]
fn write_pair(printer: &mut Printer, pair: &Pair) -> Result<(), AllocError>
    ensures { OnOk result (printer.new ≡ all_written printer.old (parts.pair pair.now)) }
{
    printer.key(&pair.key)?;
    printer.mark(Mark::Colon)?;
    write_operand(printer, &pair.value, ASSIGNMENT, true)
}

/// Keys and values with commas between.
#[cycle(print)]
fn write_pairs(printer: &mut Printer, pairs: &Pairs) -> Result<(), AllocError>
    ensures { OnOk result (printer.new ≡ all_written printer.old (parts.pairs pairs.now)) }
{
    let mut is_behind = false;
    for pair in pairs.items() {
        printer.comma(is_behind)?;
        write_pair(printer, pair)?;
        is_behind = true;
    }
    Ok(())
}
