ghost use Rattle.std.specs.Prelude.{◌≡◌, OnOk};
ghost use Rattle.js_printer.specs.Printed as printed;
ghost use Rattle.js_printer.specs.Signs as spec;
ghost use Rattle.js_printer.specs.Written.{written};

use crate::writer::Printer;
use js_lexer::{Mark, Word};
use js_tree::{BinaryOp, PostfixOp, PrefixOp};
use std::alloc::AllocError;

/// The mark of an assignment (ES3 11.13); an operator that is joined with no `=` is in no tree of a
/// script.
pub fn assignment_mark(op: Option<BinaryOp>) -> Mark
    ensures { result ≡ printed.assignment_mark (spec.assignment op) }
{
    match op {
        None => Mark::Assign,
        Some(BinaryOp::Multiply) => Mark::TimesAssign,
        Some(BinaryOp::Divide) => Mark::SlashAssign,
        Some(BinaryOp::Remainder) => Mark::PercentAssign,
        Some(BinaryOp::Add) => Mark::PlusAssign,
        Some(BinaryOp::Subtract) => Mark::MinusAssign,
        Some(BinaryOp::ShiftLeft) => Mark::ShiftLeftAssign,
        Some(BinaryOp::ShiftRight) => Mark::ShiftRightAssign,
        Some(BinaryOp::ShiftRightUnsigned) => Mark::ShiftRightUnsignedAssign,
        Some(BinaryOp::BitAnd) => Mark::BitAndAssign,
        Some(BinaryOp::BitXor) => Mark::BitXorAssign,
        Some(BinaryOp::BitOr) => Mark::BitOrAssign,
        Some(
            BinaryOp::Equal
            | BinaryOp::NotEqual
            | BinaryOp::Same
            | BinaryOp::NotSame
            | BinaryOp::Less
            | BinaryOp::Greater
            | BinaryOp::LessEqual
            | BinaryOp::GreaterEqual
            | BinaryOp::InstanceOf
            | BinaryOp::In,
        ) => Mark::Assign,
    }
}

/// The mark of a postfix operator (ES3 11.3).
pub fn write_postfix(printer: &mut Printer, op: PostfixOp) -> Result<(), AllocError>
    ensures { OnOk result (printer.new ≡ written printer.old (spec.postfix_sign op)) }
{
    match op {
        PostfixOp::Increment => printer.mark(Mark::PlusPlus),
        PostfixOp::Decrement => printer.mark(Mark::MinusMinus),
    }
}

/// The word or the mark of a prefix operator (ES3 11.4).
pub fn write_prefix(printer: &mut Printer, op: PrefixOp) -> Result<(), AllocError>
    ensures { OnOk result (printer.new ≡ written printer.old (spec.prefix_sign op)) }
{
    match op {
        PrefixOp::Delete => printer.word(Word::Delete),
        PrefixOp::Void => printer.word(Word::Void),
        PrefixOp::TypeOf => printer.word(Word::TypeOf),
        PrefixOp::Increment => printer.mark(Mark::PlusPlus),
        PrefixOp::Decrement => printer.mark(Mark::MinusMinus),
        PrefixOp::Plus => printer.mark(Mark::Plus),
        PrefixOp::Minus => printer.mark(Mark::Minus),
        PrefixOp::BitNot => printer.mark(Mark::BitNot),
        PrefixOp::Not => printer.mark(Mark::Not),
    }
}

/// The word or the mark of an operation (ES3 11.5 to 11.10).
pub fn write_operation(printer: &mut Printer, op: BinaryOp) -> Result<(), AllocError>
    ensures { OnOk result (printer.new ≡ written printer.old (spec.operation_sign op)) }
{
    match op {
        BinaryOp::BitOr => printer.mark(Mark::BitOr),
        BinaryOp::BitXor => printer.mark(Mark::BitXor),
        BinaryOp::BitAnd => printer.mark(Mark::BitAnd),
        BinaryOp::Equal => printer.mark(Mark::Equal),
        BinaryOp::NotEqual => printer.mark(Mark::NotEqual),
        BinaryOp::Same => printer.mark(Mark::StrictEqual),
        BinaryOp::NotSame => printer.mark(Mark::StrictNotEqual),
        BinaryOp::Less => printer.mark(Mark::Less),
        BinaryOp::Greater => printer.mark(Mark::Greater),
        BinaryOp::LessEqual => printer.mark(Mark::LessEqual),
        BinaryOp::GreaterEqual => printer.mark(Mark::GreaterEqual),
        BinaryOp::InstanceOf => printer.word(Word::InstanceOf),
        BinaryOp::In => printer.word(Word::In),
        BinaryOp::ShiftLeft => printer.mark(Mark::ShiftLeft),
        BinaryOp::ShiftRight => printer.mark(Mark::ShiftRight),
        BinaryOp::ShiftRightUnsigned => printer.mark(Mark::ShiftRightUnsigned),
        BinaryOp::Add => printer.mark(Mark::Plus),
        BinaryOp::Subtract => printer.mark(Mark::Minus),
        BinaryOp::Multiply => printer.mark(Mark::Times),
        BinaryOp::Divide => printer.mark(Mark::Slash),
        BinaryOp::Remainder => printer.mark(Mark::Percent),
    }
}
