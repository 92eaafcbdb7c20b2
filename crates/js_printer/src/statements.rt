//! Statements (ES3 section 12). Each function writes its part of the tree, and its contract says
//! which tokens these are.

#![tactic(auto, using(crate::proofs::Writing::all_written_append))]

ghost use Rattle.std.specs.Prelude.{◌≡◌, ◌++◌, ◌∷◌, [], true, OnOk};
ghost use Rattle.js_lexer.specs.declared.mark.Mark.TheVariants as m;
ghost use Rattle.js_lexer.specs.declared.token.TokenKind.TheVariants as k;
ghost use Rattle.js_lexer.specs.declared.word.Word.TheVariants as w;
ghost use Rattle.js_printer.specs.Parts as parts;
ghost use Rattle.js_printer.specs.Printed as printed;
ghost use Rattle.js_printer.specs.Written.{all_written};

use crate::expressions::{write_enclosed, write_expr, write_operand};
use crate::first::begins_as_another;
use crate::functions::write_func;
use crate::operands::{ASSIGNMENT, CALL, COMMA};
use crate::writer::Printer;
use dl_text::{Listed, Units};
use js_lexer::{Mark, Word};
use js_tree::{Boxed, Case, Cases, Expr, ForInit, ForTarget, Stmt, Stmts, VarItem, VarItems};
use std::alloc::AllocError;

/// A statement, or a function declaration (ES3 section 13).
#[cycle(print)]
#[tactic(auto, using(crate::proofs::StatementViews::statement_parts))]
pub fn write_stmt(printer: &mut Printer, stmt: &Stmt) -> Result<(), AllocError>
    ensures { OnOk result (printer.new ≡ all_written printer.old (parts.stmt stmt.now)) }
{
    match stmt {
        Stmt::Block(body) => write_block(printer, body),
        Stmt::Var(items) => write_variables(printer, items),
        Stmt::Empty => printer.mark(Mark::Semicolon),
        Stmt::Do(expr) => write_expression(printer, expr),
        Stmt::If(test, then, other) => {
            write_header(printer, Word::If, test)?;
            write_stmt(printer, then.get())?;
            write_maybe_behind(printer, Word::Else, other)?;
            Ok(())
        }
        Stmt::DoWhile(body, test) => {
            write_behind(printer, Word::Do, body.get())?;
            write_header(printer, Word::While, test)?;
            printer.mark(Mark::Semicolon)?;
            Ok(())
        }
        Stmt::While(test, body) => {
            write_header(printer, Word::While, test)?;
            write_stmt(printer, body.get())?;
            Ok(())
        }
        Stmt::For(first, test, next, body) => {
            write_for_first(printer, first)?;
            write_maybe_before(printer, test, Mark::Semicolon)?;
            write_maybe_before(printer, next, Mark::CloseParenthesis)?;
            write_stmt(printer, body.get())?;
            Ok(())
        }
        Stmt::ForIn(target, object, body) => {
            write_for_target(printer, target)?;
            write_for_object(printer, object)?;
            write_stmt(printer, body.get())?;
            Ok(())
        }
        Stmt::Continue(label) => printer.jump(Word::Continue, label),
        Stmt::Break(label) => printer.jump(Word::Break, label),
        Stmt::Return(value) => {
            printer.word(Word::Return)?;
            write_maybe_before(printer, value, Mark::Semicolon)
        }
        Stmt::Switch(value, cases) => {
            write_header(printer, Word::Switch, value)?;
            write_clauses(printer, cases)?;
            Ok(())
        }
        Stmt::Label(name, body) => {
            printer.name(name)?;
            printer.mark(Mark::Colon)?;
            write_stmt(printer, body.get())
        }
        Stmt::Throw(expr) => write_throw(printer, expr),
        Stmt::Try(block, handler, last) => {
            write_behind(printer, Word::Try, block.get())?;
            write_handler(printer, handler)?;
            write_maybe_behind(printer, Word::Finally, last)?;
            Ok(())
        }
        Stmt::Declare(func) => write_func(printer, func),
        Stmt::Used(entry) => printer.used(*entry),
    }
}

/// Statements one behind the other.
#[cycle(print)]
pub fn write_stmts(printer: &mut Printer, stmts: &Stmts) -> Result<(), AllocError>
    ensures { OnOk result (printer.new ≡ all_written printer.old (parts.stmts stmts.now)) }
{
    for stmt in stmts.items() {
        write_stmt(printer, stmt)?;
    }
    Ok(())
}

/// Statements in braces: a block (ES3 12.1) or the body of a function.
#[cycle(print)]
pub fn write_block(printer: &mut Printer, body: &Stmts) -> Result<(), AllocError>
    ensures { OnOk result (printer.new ≡ all_written printer.old
        (k.Mark m.OpenBrace ∷ (parts.stmts body.now ++ (k.Mark m.CloseBrace ∷ [])))) }
{
    printer.mark(Mark::OpenBrace)?;
    write_stmts(printer, body)?;
    printer.mark(Mark::CloseBrace)
}

/// A `var` statement (ES3 12.2).
#[cycle(print)]
fn write_variables(printer: &mut Printer, items: &VarItems) -> Result<(), AllocError>
    ensures { OnOk result (printer.new ≡ all_written printer.old
        (k.Word w.Var ∷ (parts.var_items items.now true ++ (k.Mark m.Semicolon ∷ [])))) }
{
    printer.word(Word::Var)?;
    write_var_items(printer, items, true)?;
    printer.mark(Mark::Semicolon)
}

/// An expression statement (ES3 12.4), in parentheses where it would begin as a block or a
/// declaration does.
#[cycle(print)]
fn write_expression(printer: &mut Printer, expr: &Expr) -> Result<(), AllocError>
    ensures { OnOk result (printer.new
        ≡ all_written printer.old (printed.expression_statement (parts.expr expr.now true))) }
{
    write_enclosed_if(printer, begins_as_another(expr), expr)?;
    printer.mark(Mark::Semicolon)
}

/// An expression, in parentheses where they are wanted.
#[cycle(print)]
fn write_enclosed_if(printer: &mut Printer, wanted: bool, expr: &Expr) -> Result<(), AllocError>
    ensures { OnOk result (printer.new
        ≡ all_written printer.old (printed.enclosed_if wanted (parts.expr expr.now true))) }
{
    if wanted {
        write_enclosed(printer, expr)
    } else {
        write_expr(printer, expr, true)
    }
}

/// A word and an expression in parentheses: how an `if`, a `while` and a `switch` begin.
#[cycle(print)]
fn write_header(printer: &mut Printer, word: Word, expr: &Expr) -> Result<(), AllocError>
    ensures { OnOk result (printer.new
        ≡ all_written printer.old (k.Word word ∷ printed.enclosed (parts.expr expr.now true))) }
{
    printer.word(word)?;
    write_enclosed(printer, expr)
}

/// A statement behind a word.
#[cycle(print)]
fn write_behind(printer: &mut Printer, word: Word, stmt: &Stmt) -> Result<(), AllocError>
    ensures { OnOk result
        (printer.new ≡ all_written printer.old (k.Word word ∷ parts.stmt stmt.now)) }
{
    printer.word(word)?;
    write_stmt(printer, stmt)
}

/// An `else` or a `finally`, where there is one.
#[cycle(print)]
fn write_maybe_behind(
    printer: &mut Printer,
    word: Word,
    stmt: &Option<Boxed<Stmt>>,
) -> Result<(), AllocError>
    ensures { OnOk result
        (printer.new ≡ all_written printer.old (parts.maybe_behind word stmt.now)) }
{
    match stmt {
        None => Ok(()),
        Some(stmt) => write_behind(printer, word, stmt.get()),
    }
}

/// An expression where there is one, and a mark.
#[cycle(print)]
fn write_maybe_before(
    printer: &mut Printer,
    expr: &Option<Expr>,
    mark: Mark,
) -> Result<(), AllocError>
    ensures { OnOk result
        (printer.new ≡ all_written printer.old (parts.maybe_expr expr.now ++ (k.Mark mark ∷ []))) }
{
    match expr {
        None => printer.mark(mark),
        Some(expr) => {
            write_expr(printer, expr, true)?;
            printer.mark(mark)?;
            Ok(())
        }
    }
}

/// A `throw` (ES3 12.13).
#[cycle(print)]
fn write_throw(printer: &mut Printer, expr: &Expr) -> Result<(), AllocError>
    ensures { OnOk result (printer.new ≡ all_written printer.old
        (k.Word w.Throw ∷ (parts.expr expr.now true ++ (k.Mark m.Semicolon ∷ [])))) }
{
    printer.word(Word::Throw)?;
    write_expr(printer, expr, true)?;
    printer.mark(Mark::Semicolon)
}

/// How a `for` begins, up to its first semicolon (ES3 12.6.3).
#[cycle(print)]
fn write_for_first(printer: &mut Printer, first: &ForInit) -> Result<(), AllocError>
    ensures { OnOk result (printer.new ≡ all_written printer.old
        (k.Word w.For ∷ (k.Mark m.OpenParenthesis
        ∷ (parts.for_init first.now ++ (k.Mark m.Semicolon ∷ []))))) }
{
    printer.word(Word::For)?;
    printer.mark(Mark::OpenParenthesis)?;
    write_for_init(printer, first)?;
    printer.mark(Mark::Semicolon)
}

/// The first part of a `for` header (ES3 12.6.3). Outside brackets an `in` is in parentheses there.
#[cycle(print)]
fn write_for_init(printer: &mut Printer, first: &ForInit) -> Result<(), AllocError>
    ensures { OnOk result (printer.new ≡ all_written printer.old (parts.for_init first.now)) }
{
    match first {
        ForInit::Nothing => Ok(()),
        ForInit::Vars(items) => {
            printer.word(Word::Var)?;
            write_var_items(printer, items, false)
        }
        ForInit::First(expr) => write_operand(printer, expr, COMMA, false),
    }
}

/// How a `for-in` begins, before its `in` (ES3 12.6.4).
#[cycle(print)]
fn write_for_target(printer: &mut Printer, target: &ForTarget) -> Result<(), AllocError>
    ensures { OnOk result (printer.new ≡ all_written printer.old
        (k.Word w.For ∷ (k.Mark m.OpenParenthesis ∷ parts.for_target target.now))) }
{
    printer.word(Word::For)?;
    printer.mark(Mark::OpenParenthesis)?;
    write_target(printer, target)
}

/// The `in` of a `for-in` and its object (ES3 12.6.4).
#[cycle(print)]
fn write_for_object(printer: &mut Printer, object: &Expr) -> Result<(), AllocError>
    ensures { OnOk result (printer.new ≡ all_written printer.old
        (k.Word w.In ∷ (parts.expr object.now true ++ (k.Mark m.CloseParenthesis ∷ [])))) }
{
    printer.word(Word::In)?;
    write_expr(printer, object, true)?;
    printer.mark(Mark::CloseParenthesis)
}

/// What a `for-in` assigns to (ES3 12.6.4).
#[cycle(print)]
fn write_target(printer: &mut Printer, target: &ForTarget) -> Result<(), AllocError>
    ensures { OnOk result (printer.new ≡ all_written printer.old (parts.for_target target.now)) }
{
    match target {
        ForTarget::Var(item) => {
            printer.word(Word::Var)?;
            write_var_item(printer, item, false)
        }
        ForTarget::Target(expr) => write_operand(printer, expr, CALL, false),
    }
}

/// A declarator of a `var` list (ES3 12.2).
#[cycle(print)]
fn write_var_item(printer: &mut Printer, item: &VarItem, with_in: bool) -> Result<(), AllocError>
    ensures { OnOk result
        (printer.new ≡ all_written printer.old (parts.var_item item.now with_in)) }
{
    printer.name(&item.name)?;
    write_initialiser(printer, &item.value, with_in)
}

/// The value that a declarator begins with, where there is one (ES3 12.2).
#[cycle(print)]
fn write_initialiser(
    printer: &mut Printer,
    value: &Option<Expr>,
    with_in: bool,
) -> Result<(), AllocError>
    ensures { OnOk result
        (printer.new ≡ all_written printer.old (parts.initialiser value.now with_in)) }
{
    match value {
        None => Ok(()),
        Some(value) => {
            printer.mark(Mark::Assign)?;
            write_operand(printer, value, ASSIGNMENT, with_in)
        }
    }
}

/// The declarators of a `var` list, with commas between (ES3 12.2).
#[cycle(print)]
fn write_var_items(printer: &mut Printer, items: &VarItems, with_in: bool) -> Result<(), AllocError>
    ensures { OnOk result
        (printer.new ≡ all_written printer.old (parts.var_items items.now with_in)) }
{
    let mut is_behind = false;
    for item in items.items() {
        printer.comma(is_behind)?;
        write_var_item(printer, item, with_in)?;
        is_behind = true;
    }
    Ok(())
}

/// The clauses of a `switch` in their braces (ES3 12.11).
#[cycle(print)]
fn write_clauses(printer: &mut Printer, cases: &Cases) -> Result<(), AllocError>
    ensures { OnOk result (printer.new ≡ all_written printer.old
        (k.Mark m.OpenBrace ∷ (parts.cases cases.now ++ (k.Mark m.CloseBrace ∷ [])))) }
{
    printer.mark(Mark::OpenBrace)?;
    write_cases(printer, cases)?;
    printer.mark(Mark::CloseBrace)
}

/// A clause of a `switch` (ES3 12.11).
#[cycle(print)]
fn write_case(printer: &mut Printer, case: &Case) -> Result<(), AllocError>
    ensures { OnOk result (printer.new ≡ all_written printer.old (parts.case case.now)) }
{
    write_case_head(printer, &case.test)?;
    printer.mark(Mark::Colon)?;
    write_stmts(printer, &case.body)?;
    Ok(())
}

/// A `case` with its test, or `default` (ES3 12.11).
#[cycle(print)]
fn write_case_head(printer: &mut Printer, test: &Option<Expr>) -> Result<(), AllocError>
    ensures { OnOk result (printer.new ≡ all_written printer.old (parts.case_head test.now)) }
{
    match test {
        None => printer.word(Word::Default),
        Some(test) => {
            printer.word(Word::Case)?;
            write_expr(printer, test, true)
        }
    }
}

/// The clauses of a `switch` (ES3 12.11).
#[cycle(print)]
fn write_cases(printer: &mut Printer, cases: &Cases) -> Result<(), AllocError>
    ensures { OnOk result (printer.new ≡ all_written printer.old (parts.cases cases.now)) }
{
    for case in cases.items() {
        write_case(printer, case)?;
    }
    Ok(())
}

/// A `catch` with its name, where there is one (ES3 12.14).
#[cycle(print)]
fn write_handler(
    printer: &mut Printer,
    handler: &Option<(Units, Boxed<Stmt>)>,
) -> Result<(), AllocError>
    ensures { OnOk result (printer.new ≡ all_written printer.old (parts.handler handler.now)) }
{
    match handler {
        None => Ok(()),
        Some((name, block)) => {
            printer.word(Word::Catch)?;
            printer.mark(Mark::OpenParenthesis)?;
            printer.name(name)?;
            printer.mark(Mark::CloseParenthesis)?;
            write_stmt(printer, block.get())
        }
    }
}
