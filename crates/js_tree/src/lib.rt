//! The trees of scripts: what the parser gives and every later layer reads.
//!
//! The layers above may know the types as they stand here, and in contracts the plain trees of
//! `specs/Tree.antt`, on which every definition stands. A plain tree has no places in memory, so
//! two equal trees are one value. `Script` and `Func` have `copy` of `TryCopy`.
#![tactic(auto)]

mod copy;
mod depths;
mod equality;
mod laws;
mod lists;
mod numbers;
mod rows;
#[cfg(test)]
mod tests;
mod tree;

pub use depths::depth;
pub use equality::same;
pub use laws::scripts_are_renumbered;
pub use lists::{Boxed, Items};
pub use numbers::number_functions;
pub use rows::{functions_in_trees, numbered_scripts, plain_nodes, renumbered_trees};
pub use tree::{
    BinaryOp, Case, Cases, Elements, Expr, Exprs, ForInit, ForTarget, Func, LAST_FUNCTION_NUMBER,
    Pair, Pairs, PostfixOp, PrefixOp, Role, Script, Scripts, Stmt, Stmts, VarItem, VarItems,
};
