//! What a node keeps of the steps of an expression without effects.

ghost use Rattle.std.specs.Prelude.{◌≡◌};
ghost use Rattle.js_tree.specs.declared.tree.Expr.TheOpen.{Expr-F};
ghost use Rattle.js_tree.specs.Plain as view;
ghost use Rattle.js_code.specs.Costs as spec;
ghost use Rattle.js_code.specs.Costs.{CostFits, IsCost, joined, raised, told};
ghost use Rattle.js_code.specs.View.{expr_layer, expr_node_tree};

use crate::exprs::{ExprCode, ExprNode};
use js_tree::{BinaryOp, PrefixOp};

impl ExprCode {
    /// How many steps the expression takes, in constant time, if it is a name, a literal or `this`,
    /// or an operation on such that has no effect of its own where they are no objects. Of any
    /// other, and of more than 1,000 steps, it is 0.
    #[inline]
    pub fn cost(&self) -> u32
        ensures exactly { result ≡ told (spec.cost (view.expr self.now)) }
        ensures steps { IsCost result (view.expr self.now) }
    {
        self.node().cost()
    }
}

impl ExprNode {
    /// A prefix operation, with its cost.
    pub(crate) fn prefix(op: PrefixOp, operand: ExprCode) -> ExprNode
        ensures layer { expr_layer result ≡ Expr-F.Prefix op operand }
        ensures cost { CostFits result }
    {
        let cost = prefix_cost(op, operand.cost());
        ExprNode::Prefix(op, cost, operand)
    }

    /// A binary operation, with its cost.
    pub(crate) fn binary(op: BinaryOp, left: ExprCode, right: ExprCode) -> ExprNode
        ensures layer { expr_layer result ≡ Expr-F.Binary op left right }
        ensures cost { CostFits result }
    {
        let cost = binary_cost(op, left.cost(), right.cost());
        ExprNode::Binary(op, cost, left, right)
    }

    #[inline]
    fn cost(&self) -> u32
        requires { CostFits self.now }
        ensures { result ≡ told (spec.cost (expr_node_tree self.now)) }
    {
        match self {
            ExprNode::Num(_)
            | ExprNode::Str(_)
            | ExprNode::Bool(_)
            | ExprNode::Null
            | ExprNode::This
            | ExprNode::Name(_) => 1,
            ExprNode::Prefix(_, cost, _) | ExprNode::Binary(_, cost, _, _) => *cost,
            ExprNode::Array(_)
            | ExprNode::Object(_)
            | ExprNode::Func(_)
            | ExprNode::Dot(_, _)
            | ExprNode::Index(_, _)
            | ExprNode::Call(_, _)
            | ExprNode::New(_, _)
            | ExprNode::Postfix(_, _)
            | ExprNode::And(_, _)
            | ExprNode::Or(_, _)
            | ExprNode::Comma(_, _)
            | ExprNode::Cond(_, _, _)
            | ExprNode::Assign(_, _, _)
            | ExprNode::Late(_) => 0,
        }
    }
}

/// The cost of a prefix operation on what has this cost (ES3 11.4).
fn prefix_cost(op: PrefixOp, operand: u32) -> u32
    ensures { result ≡ told (spec.prefix_cost op operand) }
{
    match op {
        PrefixOp::Void | PrefixOp::Plus | PrefixOp::Minus | PrefixOp::BitNot | PrefixOp::Not => {
            one_more(operand)
        }
        PrefixOp::Delete | PrefixOp::TypeOf | PrefixOp::Increment | PrefixOp::Decrement => 0,
    }
}

/// The cost of a binary operation on what has these costs (ES3 11.5 to 11.10).
fn binary_cost(op: BinaryOp, left: u32, right: u32) -> u32
    ensures { result ≡ told (spec.binary_cost op left right) }
{
    match op {
        BinaryOp::InstanceOf | BinaryOp::In => 0,
        BinaryOp::BitOr
        | BinaryOp::BitXor
        | BinaryOp::BitAnd
        | BinaryOp::Equal
        | BinaryOp::NotEqual
        | BinaryOp::Same
        | BinaryOp::NotSame
        | BinaryOp::Less
        | BinaryOp::Greater
        | BinaryOp::LessEqual
        | BinaryOp::GreaterEqual
        | BinaryOp::ShiftLeft
        | BinaryOp::ShiftRight
        | BinaryOp::ShiftRightUnsigned
        | BinaryOp::Add
        | BinaryOp::Subtract
        | BinaryOp::Multiply
        | BinaryOp::Divide
        | BinaryOp::Remainder => sum(left, right),
    }
}

fn one_more(operand: u32) -> u32
    ensures { result ≡ told (raised operand) }
{
    if operand == 0 || operand >= 1_000 {
        0
    } else {
        operand + 1
    }
}

fn sum(left: u32, right: u32) -> u32
    ensures { result ≡ told (joined left right) }
{
    if left == 0 || right == 0 || left >= 1_000 || right >= 1_000 || left + right >= 1_000 {
        0
    } else {
        left + right + 1
    }
}
