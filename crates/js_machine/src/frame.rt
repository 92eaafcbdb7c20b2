//! What waits for outcomes, and what the machine does next.

use js_code::{ElementCodes, ExprCode, ExprCodes, PairCodes, StmtCode, StmtCodes, VarCodes};
use js_tree::{BinaryOp, PostfixOp, PrefixOp};
use js_values::{ObjectId, Reason};
use std::mem::size_of;

/// What waits for an outcome. It owns the newest values as far as it says so.
#[derive(Drop)]
pub enum Frame {
    /// For the left operand; then the right one is begun.
    Left(BinaryOp, ExprCode),
    /// For the right operand. It owns the left one.
    Right(BinaryOp),
    And(ExprCode),
    Or(ExprCode),
    Comma(ExprCode),
    /// For the test of `?:`, whose branches these are.
    Cond(ExprCode, ExprCode),
    /// For the value of an expression statement.
    Do,
    /// For a statement, behind which the list goes on from this number on.
    Next(StmtCodes, u32),
    /// For the test of this `if`.
    If(StmtCode),
    /// For the test of this loop.
    Test(StmtCode),
    /// For the end of a turn of this loop.
    Turn(StmtCode),
    /// For an expression in the header of this loop, behind which a turn begins.
    Again(StmtCode),
    /// For the value that is written to this name.
    Store(ExprCode),
    /// For the right operand of an assignment to this name. It owns the left one.
    StoreWith(BinaryOp, ExprCode),
    /// For the operand of an operator on a value.
    Unary(PrefixOp),
    /// For the operand of `typeof`.
    Type,
    /// For the value of the item of a `var` that has this number.
    Var(u32, VarCodes),
    /// The same in the header of this loop.
    ForVar(u32, VarCodes, StmtCode),
    /// For the base of this dot, which is called with these arguments.
    Callee(ExprCode, ExprCodes),
    /// For the argument of the call that has this number. It owns those before it and the base.
    Argument(u32, ExprCode, ExprCodes),
    /// For the base of the member that this node works on.
    Base(ExprCode),
    /// For the key of that member. It owns the base.
    Key(ExprCode),
    /// For the value that is written to a member. It owns the name and under it the base.
    Put,
    /// For the right operand of an assignment to a member. It owns the left one above these.
    PutWith(BinaryOp),
    /// For the value of a member that changes by one, and whether the new one is given. It owns the
    /// name and under it the base.
    Changed(PostfixOp, bool),
    /// For the element of an array literal at this index. It owns the array.
    Element(u32, ElementCodes),
    /// For the value of the pair of an object literal that has this number. It owns the object.
    Pair(u32, PairCodes),
    /// For the right operand of `in`. It owns the left one.
    In,
    /// For the initialiser in the header of this `for-in`.
    VisitsFrom(StmtCode),
    /// For the object whose names this `for-in` visits.
    Visits(StmtCode),
    /// For the end of a turn of this `for-in`. It owns so many visits.
    Visit(u32, StmtCode),
    /// For the base of the target of a turn. It owns the name of the turn above so many visits.
    VisitBase(u32, StmtCode),
    /// For the key of that target. It owns the base above these.
    VisitKey(u32, StmtCode),
}

// Calls nest by the million.
const _: () = prove!(size_of::<Frame>() <= 24);

/// What the machine does next. A value that is given or thrown is the newest value.
#[derive(Drop)]
pub enum Control {
    /// It begins an expression, which takes a step.
    Expr(ExprCode),
    /// It begins a statement, likewise.
    Stmt(StmtCode),
    /// It begins a turn of a loop, of which this is the body.
    Body(StmtCode),
    /// It calls this dot of the value that stands under so many arguments.
    Call(u32, ExprCode),
    /// It enters this object, with so many arguments above its `this`.
    Enter(u32, ObjectId),
    /// An expression gave a value.
    Give,
    /// A statement ended.
    Done,
    /// A `break` or a `continue` without a label leaves a statement.
    Break,
    Continue,
    Throw,
    /// The run is over.
    End(End),
    /// What comes next is not built yet.
    Unbuilt(Unbuilt),
}

/// How a run ended. What was given or thrown is the newest value.
#[derive(Clone, Copy, Debug)]
pub enum End {
    Gave,
    Done,
    Broke,
    Continued,
    Threw,
    OutOfSteps,
    Stopped(Reason),
}

/// What comes next and is not built yet.
#[derive(Drop)]
pub enum Unbuilt {
    Expr(ExprCode),
    Stmt(StmtCode),
    /// The body of a loop, for a turn.
    Body(StmtCode),
    /// A frame takes the newest value, which is to be converted.
    Give,
    /// The list goes on from this number on with what is no statement.
    List(StmtCodes, u32),
    /// A script that declares functions.
    Script(StmtCodes),
    /// `++` or `--` of this name, whose value is to be converted, and whether it gives the new one.
    Change(PostfixOp, bool, ExprCode),
    /// The entry of this object, with so many arguments above its `this`.
    Enter(u32, ObjectId),
}

/// Why the machine does not go on.
#[derive(Drop)]
pub enum Over {
    End(End),
    Unbuilt(Unbuilt),
}
