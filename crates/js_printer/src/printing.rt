ghost use Rattle.std.specs.Prelude.{◌≡◌, ◌++◌, ◌∷◌, [], IfOk, OnOk};
ghost use Rattle.js_tree.specs.Plain as view;
ghost use Rattle.js_printer.specs.Parts as parts;
ghost use Rattle.js_printer.specs.Printed.{enclosed};
ghost use Rattle.js_printer.specs.PrintedText.{script_bytes, func_bytes, body_bytes, entry_bytes};
ghost use Rattle.js_printer.specs.Written.{all_written};

use crate::functions::write_func;
use crate::statements::write_stmts;
use crate::writer::Printer;
use dl_text::Text;
use js_lexer::Mark;
use js_tree::{Func, Script, Stmts};
use std::alloc::{AllocError, Global};

/// The text of a script, which ends with a line feed. As all of these calls it goes down the tree
/// by recursion: the tree must not be deeper than the stack bears, and one that a text of the
/// accepted depth gives is not.
pub fn print_script(alloc: Global, script: &Script) -> Result<Text, AllocError>
    ensures { IfOk result (λ text. text ≡ script_bytes (view.script script.now)) }
{
    let mut printer = Printer::new(alloc);
    write_stmts(&mut printer, &script.body)?;
    end_line(printer.into_text())
}

fn end_line(mut text: Text) -> Result<Text, AllocError>
    ensures { IfOk result (λ line. line ≡ text ++ 10 ∷ []) }
{
    text.push(b'\n')?;
    Ok(text)
}

/// The text of a function, as an expression or a declaration has it.
pub fn print_func(alloc: Global, func: &Func) -> Result<Text, AllocError>
    ensures { IfOk result (λ text. text ≡ func_bytes (view.func func.now)) }
{
    let mut printer = Printer::new(alloc);
    write_func(&mut printer, func)?;
    Ok(printer.into_text())
}

/// The text of a body: what stands between the braces of its function.
pub fn print_body(alloc: Global, body: &Stmts) -> Result<Text, AllocError>
    ensures { IfOk result (λ text. text ≡ body_bytes (view.body body.now)) }
{
    let mut printer = Printer::new(alloc);
    write_stmts(&mut printer, body)?;
    Ok(printer.into_text())
}

#[tactic(auto, using(crate::proofs::Writing::all_written_append))]
fn write_entry(printer: &mut Printer, func: &Func) -> Result<(), AllocError>
    ensures { OnOk result
        (printer.new ≡ all_written printer.old (enclosed (parts.func func.now))) }
{
    printer.mark(Mark::OpenParenthesis)?;
    write_func(printer, func)?;
    printer.mark(Mark::CloseParenthesis)
}

/// The text of an entry of a site's file: its function as an expression in parentheses.
pub fn print_entry(alloc: Global, func: &Func) -> Result<Text, AllocError>
    ensures { IfOk result (λ text. text ≡ entry_bytes (view.func func.now)) }
{
    let mut printer = Printer::new(alloc);
    write_entry(&mut printer, func)?;
    Ok(printer.into_text())
}
