ghost use Rattle.std.specs.Prelude.{◌≡◌, suc, false, true, [], ◌<◌};
ghost use Rattle.js_tree.specs.Levels as levels;
ghost use Rattle.js_tree.specs.Plain as view;
ghost use Rattle.js_printer.specs.Parts as parts;
ghost use Rattle.js_printer.specs.Printed as printed;

use js_tree::{BinaryOp, Expr, PrefixOp};

// The levels of expressions: what binds less has the lower one (ES3 section 11).
pub const COMMA: u8 = 1;

pub const ASSIGNMENT: u8 = 2;

pub const CONDITION: u8 = 3;

pub const OR: u8 = 4;

pub const AND: u8 = 5;

pub const PREFIX: u8 = 14;

pub const POSTFIX: u8 = 15;

pub const CALL: u8 = 16;

const PRIMARY: u8 = 19;

/// The level of an operation (ES3 11.5 to 11.10).
pub fn operation_level(op: BinaryOp) -> u8
    ensures value { result ≡ levels.operation_level op }
    ensures bound { result < 14 }
{
    match op {
        BinaryOp::BitOr => 6,
        BinaryOp::BitXor => 7,
        BinaryOp::BitAnd => 8,
        BinaryOp::Equal | BinaryOp::NotEqual | BinaryOp::Same | BinaryOp::NotSame => 9,
        BinaryOp::Less
        | BinaryOp::Greater
        | BinaryOp::LessEqual
        | BinaryOp::GreaterEqual
        | BinaryOp::InstanceOf
        | BinaryOp::In => 10,
        BinaryOp::ShiftLeft | BinaryOp::ShiftRight | BinaryOp::ShiftRightUnsigned => 11,
        BinaryOp::Add | BinaryOp::Subtract => 12,
        BinaryOp::Multiply | BinaryOp::Divide | BinaryOp::Remainder => 13,
    }
}

/// The level that the right operand of an operation needs, which groups to the left.
pub fn right_level(op: BinaryOp) -> u8
    ensures { result ≡ suc (levels.operation_level op) }
{
    operation_level(op) + 1
}

/// The level that the operand of a prefix operator needs: `++` and `--` change a target (ES3 11.4).
pub fn prefix_least(op: PrefixOp) -> u8
    ensures { result ≡ printed.prefix_least (levels.changes op) }
{
    match op {
        PrefixOp::Increment | PrefixOp::Decrement => CALL,
        PrefixOp::Delete
        | PrefixOp::Void
        | PrefixOp::TypeOf
        | PrefixOp::Plus
        | PrefixOp::Minus
        | PrefixOp::BitNot
        | PrefixOp::Not => PREFIX,
    }
}

/// The level of an expression that is written without parentheses.
fn level_of(expr: &Expr) -> u8
    ensures { result ≡ printed.level_of (view.expr expr.now) }
{
    match expr {
        Expr::Comma(_, _) => COMMA,
        Expr::Assign(_, _, _) => ASSIGNMENT,
        Expr::Cond(_, _, _) => CONDITION,
        Expr::Or(_, _) => OR,
        Expr::And(_, _) => AND,
        Expr::Binary(op, _, _) => operation_level(*op),
        Expr::Prefix(_, _) => PREFIX,
        Expr::Postfix(_, _) => POSTFIX,
        Expr::Dot(_, _) | Expr::Index(_, _) | Expr::Call(_, _) | Expr::New(_, _) => CALL,
        Expr::Num(_)
        | Expr::Str(_)
        | Expr::Bool(_)
        | Expr::Null
        | Expr::This
        | Expr::Name(_)
        | Expr::Array(_)
        | Expr::Object(_)
        | Expr::Func(_)
        | Expr::Late(_) => PRIMARY,
    }
}

fn is_in(op: BinaryOp) -> bool
    ensures { result ≡ levels.is_in op }
{
    match op {
        BinaryOp::In => true,
        BinaryOp::BitOr
        | BinaryOp::BitXor
        | BinaryOp::BitAnd
        | BinaryOp::Equal
        | BinaryOp::NotEqual
        | BinaryOp::Same
        | BinaryOp::NotSame
        | BinaryOp::Less
        | BinaryOp::Greater
        | BinaryOp::LessEqual
        | BinaryOp::GreaterEqual
        | BinaryOp::InstanceOf
        | BinaryOp::ShiftLeft
        | BinaryOp::ShiftRight
        | BinaryOp::ShiftRightUnsigned
        | BinaryOp::Add
        | BinaryOp::Subtract
        | BinaryOp::Multiply
        | BinaryOp::Divide
        | BinaryOp::Remainder => false,
    }
}

/// Whether it is an operation with `in`.
fn is_in_operation(expr: &Expr) -> bool
    ensures { result ≡ levels.is_in_operation (view.expr expr.now) }
{
    match expr {
        Expr::Binary(op, _, _) => is_in(*op),
        _ => false,
    }
}

/// Whether it is a number, behind which a dot would be read as a part of it.
pub fn is_number(expr: &Expr) -> bool
    ensures { result ≡ printed.is_number (view.expr expr.now) }
{
    match expr {
        Expr::Num(_) => true,
        _ => false,
    }
}

/// Whether it is a function.
pub fn is_function(expr: &Expr) -> bool
    ensures { result ≡ printed.is_function (view.expr expr.now) }
{
    match expr {
        Expr::Func(_) => true,
        _ => false,
    }
}

/// Whether a call is on its left side outside parentheses, which `new` would take for its own. It
/// goes down that side, at a `new` alone, which has none itself.
pub fn has_call(expr: &Expr) -> bool
    ensures { result ≡ printed.has_call (view.expr expr.now) }
{
    match expr {
        Expr::Call(_, _) => true,
        Expr::Dot(object, _) | Expr::Index(object, _) => has_call(object.get()),
        _ => false,
    }
}

/// Whether an operand is in parentheses where its place needs this level, and `in` may stand there
/// or not.
pub fn needs(expr: &Expr, least: u8, with_in: bool) -> bool
    ensures { result ≡ printed.needs false with_in least (view.expr expr.now) }
{
    level_of(expr) < least || (!with_in && is_in_operation(expr))
}
