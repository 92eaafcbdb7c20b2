//! The first token of an expression statement, told before it is written.

ghost use Rattle.std.specs.Prelude.{◌≡◌, true};
ghost use Rattle.js_tree.specs.Plain as view;
ghost use Rattle.js_printer.specs.Parts as parts;
ghost use Rattle.js_printer.specs.Printed as printed;

use crate::operands::{
    AND, ASSIGNMENT, CALL, COMMA, OR, is_function, is_number, needs, operation_level,
};
use js_tree::{Boxed, Expr};

/// Whether the first token of the expression is `{` or `function`. It goes down the left side of
/// the tree, once for a statement.
#[cycle(first)]
#[tactic(auto, using(crate::proofs::Beginnings::first_parts))]
pub fn begins_as_another(expr: &Expr) -> bool
    ensures { result ≡ printed.begins_as_another (parts.expr expr.now true) }
{
    match expr {
        Expr::Object(_) | Expr::Func(_) => true,
        Expr::Dot(object, _) => {
            begins(
                is_number(object.get()) || is_function(object.get()),
                object,
                CALL,
            )
        }
        Expr::Index(left, _) | Expr::Call(left, _) => begins(is_function(left.get()), left, CALL),
        Expr::Postfix(left, _) | Expr::Assign(_, left, _) => begins(false, left, CALL),
        Expr::Binary(op, left, _) => begins(false, left, operation_level(*op)),
        Expr::And(left, _) => begins(false, left, AND),
        Expr::Or(left, _) | Expr::Cond(left, _, _) => begins(false, left, OR),
        Expr::Comma(left, _) => begins(false, left, COMMA),
        Expr::Num(_)
        | Expr::Str(_)
        | Expr::Bool(_)
        | Expr::Null
        | Expr::This
        | Expr::Name(_)
        | Expr::Array(_)
        | Expr::New(_, _)
        | Expr::Prefix(_, _)
        | Expr::Late(_) => false,
    }
}

/// The same of an operand, which begins with `(` where it is in parentheses.
#[cycle(first)]
#[tactic(auto, using(crate::proofs::Beginnings::begins_operand))]
fn begins(reason: bool, operand: &Boxed<Expr>, least: u8) -> bool
    ensures { result
        ≡ printed.begins_as_another (parts.operand_for reason true least operand.now) }
{
    let operand = operand.get();
    !reason && !needs(operand, least, true) && begins_as_another(operand)
}
