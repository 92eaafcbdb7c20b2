use crate::lists::{Boxed, Items};
use dl_text::{Names, Units};

/// The greatest number of a function.
pub const LAST_FUNCTION_NUMBER: u32 = 65_535;

/// A whole script: the statements and declarations of a program (ES3 section 14).
#[derive(Drop)]
pub struct Script {
    pub body: Stmts,
}

/// What a function is in a written text.
#[derive(Clone, Copy, Debug, PartialEq, Eq)]
pub enum Role {
    /// A function whose body stands in its place.
    Plain,
    /// A function whose body calls its entry of a cluster.
    Stub,
    /// A function that holds the cell of a stub.
    Wrapper,
    /// The function of an entry.
    Late,
}

/// The operators of ES3 section 11.3.
#[derive(Clone, Copy, Debug, PartialEq, Eq)]
pub enum PostfixOp {
    Increment,
    Decrement,
}

/// The operators of ES3 section 11.4.
#[derive(Clone, Copy, Debug, PartialEq, Eq)]
pub enum PrefixOp {
    Delete,
    Void,
    TypeOf,
    Increment,
    Decrement,
    Plus,
    Minus,
    BitNot,
    Not,
}

/// The operators of ES3 sections 11.5 to 11.10.
#[derive(Clone, Copy, Debug, PartialEq, Eq)]
pub enum BinaryOp {
    BitOr,
    BitXor,
    BitAnd,
    Equal,
    NotEqual,
    Same,
    NotSame,
    Less,
    Greater,
    LessEqual,
    GreaterEqual,
    InstanceOf,
    In,
    ShiftLeft,
    ShiftRight,
    ShiftRightUnsigned,
    Add,
    Subtract,
    Multiply,
    Divide,
    Remainder,
}

pub type Scripts = Items<Script>;

pub type Stmts = Items<Stmt>;

pub type Exprs = Items<Expr>;

pub type VarItems = Items<VarItem>;

pub type Cases = Items<Case>;

pub type Pairs = Items<Pair>;

/// The elements of an array literal; None is a hole.
pub type Elements = Items<Option<Expr>>;

/// A statement (ES3 section 12) or a function declaration (ES3 section 13).
#[cycle(tree)]
#[derive(Drop)]
pub enum Stmt {
    Block(Stmts),
    Var(VarItems),
    Empty,
    /// An expression statement.
    Do(Expr),
    If(Expr, Boxed<Stmt>, Option<Boxed<Stmt>>),
    DoWhile(Boxed<Stmt>, Expr),
    While(Expr, Boxed<Stmt>),
    For(ForInit, Option<Expr>, Option<Expr>, Boxed<Stmt>),
    ForIn(ForTarget, Expr, Boxed<Stmt>),
    Continue(Option<Units>),
    Break(Option<Units>),
    Return(Option<Expr>),
    Switch(Expr, Cases),
    Label(Units, Boxed<Stmt>),
    Throw(Expr),
    /// The block, the `catch` with its name, and the `finally`; each statement is a `Block`.
    Try(Boxed<Stmt>, Option<(Units, Boxed<Stmt>)>, Option<Boxed<Stmt>>),
    /// A function declaration.
    Declare(Func),
    /// `$dl_use(n);` of an instrumented tree, which no text has.
    Used(u32),
}

/// The first part of a `for` header.
#[cycle(tree)]
#[derive(Drop)]
pub enum ForInit {
    Nothing,
    Vars(VarItems),
    First(Expr),
}

/// What a `for-in` assigns to.
#[cycle(tree)]
#[derive(Drop)]
pub enum ForTarget {
    Var(VarItem),
    Target(Expr),
}

/// A declarator of a `var` list.
#[cycle(tree)]
#[derive(Drop)]
pub struct VarItem {
    pub name: Units,
    pub value: Option<Expr>,
}

/// A clause of a `switch`; a test of None is `default`.
#[cycle(tree)]
#[derive(Drop)]
pub struct Case {
    pub test: Option<Expr>,
    pub body: Stmts,
}

/// A key of an object literal and its value.
#[cycle(tree)]
#[derive(Drop)]
pub struct Pair {
    pub key: Units,
    pub value: Expr,
}

/// A function, declared or in an expression. A text says no number and no role: a parser gives 0
/// and `Plain`.
#[cycle(tree)]
#[derive(Drop)]
pub struct Func {
    pub number: u32,
    pub name: Option<Units>,
    pub formals: Names,
    pub body: Stmts,
    pub role: Role,
}

/// An expression (ES3 section 11).
#[cycle(tree)]
#[derive(Drop)]
pub enum Expr {
    Num(u64),
    Str(Units),
    Bool(bool),
    Null,
    This,
    Name(Units),
    Array(Elements),
    Object(Pairs),
    Func(Boxed<Func>),
    Dot(Boxed<Expr>, Units),
    Index(Boxed<Expr>, Boxed<Expr>),
    Call(Boxed<Expr>, Exprs),
    New(Boxed<Expr>, Exprs),
    Postfix(Boxed<Expr>, PostfixOp),
    Prefix(PrefixOp, Boxed<Expr>),
    Binary(BinaryOp, Boxed<Expr>, Boxed<Expr>),
    And(Boxed<Expr>, Boxed<Expr>),
    Or(Boxed<Expr>, Boxed<Expr>),
    Comma(Boxed<Expr>, Boxed<Expr>),
    Cond(Boxed<Expr>, Boxed<Expr>, Boxed<Expr>),
    /// An assignment; an operator of None is `=`.
    Assign(Option<BinaryOp>, Boxed<Expr>, Boxed<Expr>),
    /// `eval($dl_get(k))`: a new function of entry k.
    Late(u32),
}
