//! Functions (ES3 section 13).

#![tactic(auto, using(crate::proofs::Writing::all_written_append))]

ghost use Rattle.std.specs.Prelude.{◌≡◌, OnOk};
ghost use Rattle.js_printer.specs.Parts as parts;
ghost use Rattle.js_printer.specs.Written.{all_written};

use crate::statements::write_block;
use crate::writer::Printer;
use js_lexer::Word;
use js_tree::Func;
use std::alloc::AllocError;

/// A function, declared or in an expression.
#[cycle(print)]
pub fn write_func(printer: &mut Printer, func: &Func) -> Result<(), AllocError>
    ensures { OnOk result (printer.new ≡ all_written printer.old (parts.func func.now)) }
{
    printer.word(Word::Function)?;
    printer.maybe_name(&func.name)?;
    printer.formals(&func.formals)?;
    write_block(printer, &func.body)?;
    Ok(())
}
