//! The code that the machine runs: the trees of `js_tree` with parts that have several owners, so
//! that a frame or a function object holds a part of a program at no cost.
//!
//! `of` and `of_script` make the code of a tree, in time linear in it, and share its names. The
//! layer above may know that contracts see code as its tree: `node` gives its kind and parts, which
//! `specs/View.antt` ties to the plain tree, `get` what stands at a place of a list and what is
//! left behind it (`specs/Cursors.antt`), and the calls of `parts` what a loop, an `if` and their
//! like have (`specs/Projections.antt`). A function and a script list what they bind
//! (`specs/Bound.antt`), and an expression tells how many steps it takes if it has no effect
//! (`specs/Costs.antt`). Each `share` takes constant time. How nodes are stored, and how sizes
//! fall, stays here.
#![tactic(auto)]

mod bindings;
mod convert;
mod costs;
mod exprs;
mod funcs;
mod parts;
mod stmts;
#[cfg(test)]
mod tests;

pub use exprs::{ElementCodes, ExprCode, ExprCodes, ExprNode, PairCode, PairCodes};
pub use funcs::{BodyCode, FuncCode, FuncNode};
pub use parts::{CondParts, ForInParts, IfParts, LoopParts, TryParts};
pub use stmts::{
    CaseCode, CaseCodes, ForInitNode, ForTargetNode, StmtCode, StmtCodes, StmtNode, VarCode,
    VarCodes,
};
