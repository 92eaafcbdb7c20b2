ghost use Rattle.std.specs.Prelude.{◌≡◌, ◌+◌, IfOk, MatchOption, map};
ghost use Rattle.js_tree.specs.declared.tree.Expr.TheViews.{roll-Expr};
ghost use Rattle.js_tree.specs.Tree.{MoreElements, MoreExprs, MorePairs};
ghost use Rattle.js_tree.specs.Tree.{NoElements, NoExprs, NoPairs};
ghost use Rattle.js_tree.specs.Parts as parts;
ghost use Rattle.js_tree.specs.Plain as view;
ghost use Rattle.js_code.specs.Costs.{CostFits};
ghost use Rattle.js_code.specs.Cursors.{elements_from, exprs_from, pairs_from};
ghost use Rattle.js_code.specs.View.{expr_layer, expr_node_tree, pair_of};

use crate::funcs::FuncCode;
use dl_text::Units;
use js_tree::{BinaryOp, PostfixOp, PrefixOp};
use std::alloc::{AllocError, Global};
use std::marker::Model;
use std::mem::size_of;
use std::rc::Rc;

// Frames hold them.
const _: () = prove!(size_of::<ExprCode>() <= 8);

const _: () = prove!(size_of::<ExprCodes>() <= 8);

const _: () = prove!(size_of::<ElementCodes>() <= 8);

const _: () = prove!(size_of::<PairCodes>() <= 8);

/// An expression (ES3 section 11), which contracts see as its tree.
#[cycle(code)]
#[derive(Drop)]
pub struct ExprCode {
    node: Rc<ExprNode>,
}

/// What kind of expression it is, with its parts. The kinds are those of `js_tree::Expr`.
#[cycle(code)]
#[derive(Drop)]
pub enum ExprNode {
    Num(u64),
    Str(Units),
    Bool(bool),
    Null,
    This,
    Name(Units),
    Array(ElementCodes),
    Object(PairCodes),
    Func(FuncCode),
    Dot(ExprCode, Units),
    Index(ExprCode, ExprCode),
    Call(ExprCode, ExprCodes),
    New(ExprCode, ExprCodes),
    Postfix(ExprCode, PostfixOp),
    /// The number is what `cost` tells.
    Prefix(PrefixOp, u32, ExprCode),
    /// The number is what `cost` tells.
    Binary(BinaryOp, u32, ExprCode, ExprCode),
    And(ExprCode, ExprCode),
    Or(ExprCode, ExprCode),
    Comma(ExprCode, ExprCode),
    Cond(ExprCode, ExprCode, ExprCode),
    /// An operator of None is `=`.
    Assign(Option<BinaryOp>, ExprCode, ExprCode),
    Late(u32),
}

/// The arguments of a call, which contracts see as the list of their trees.
#[cycle(code)]
#[derive(Drop)]
pub struct ExprCodes {
    items: Rc<Vec<ExprCode>>,
}

/// The elements of an array literal; None is a hole.
#[cycle(code)]
#[derive(Drop)]
pub struct ElementCodes {
    items: Rc<Vec<Option<ExprCode>>>,
}

/// The pairs of an object literal.
#[cycle(code)]
#[derive(Drop)]
pub struct PairCodes {
    items: Rc<Vec<PairCode>>,
}

/// A key of an object literal and its value.
#[cycle(code)]
#[derive(Drop)]
pub struct PairCode {
    pub key: Units,
    pub value: ExprCode,
}

impl Model for ExprCode {
    ghost use Rattle.js_tree.specs.declared.tree.Expr.{Expr};
    ghost use Rattle.js_tree.specs.contracts.tree.Expr as t;

    ghost Value = { Expr };

    ghost coded = { t.the_row.coded };

    ghost use Rattle.js_tree.specs.declared.tree.Expr.TheViews.{roll-Expr};
    ghost use Rattle.js_code.specs.View.{expr_layer};
    ghost use Rattle.js_code.specs.Costs.{CostFits};
    ghost use Rattle.js_code.specs.Size.{expr_size};

    ghost view = { λ c. roll-Expr (expr_layer c.node.value) };

    ghost invariant = { λ c. CostFits c.node.value };

    ghost size = { expr_size };

    ghost use Rattle.std.proofs.Common.{arith};
    ghost use Rattle.js_code.specs.Falls.{expr_falls};

    ghost size_decreases = { λ a h. omega (arith, expr_falls a.node.value) };
}

impl Model for ExprCodes {
    ghost use Rattle.std.specs.Prelude.{List};
    ghost use Rattle.js_tree.specs.declared.tree.Expr.{Expr};
    ghost use Rattle.js_tree.specs.contracts.tree.Expr as t;
    ghost use Rattle.std.specs.Coded.{coded_list};

    ghost Value = { List Expr };

    ghost coded = { coded_list t.the_row.coded };

    ghost use Rattle.js_code.specs.Size.{exprs_size};

    ghost view = { λ c. c.items.value.items };

    ghost size = { exprs_size };

    ghost use Rattle.std.proofs.Common.{arith};
    ghost use Rattle.js_code.specs.Falls.{exprs_fall};

    ghost size_decreases = { λ a h. omega (arith, exprs_fall a.items.value.items) };
}

impl Model for ElementCodes {
    ghost use Rattle.std.specs.Prelude.{List, Option};
    ghost use Rattle.js_tree.specs.declared.tree.Expr.{Expr};
    ghost use Rattle.js_tree.specs.contracts.tree.Expr as t;
    ghost use Rattle.std.specs.Coded.{coded_list, coded_option};

    ghost Value = { List (Option Expr) };

    ghost coded = { coded_list (coded_option t.the_row.coded) };

    ghost use Rattle.js_code.specs.Size.{elements_size};

    ghost view = { λ c. c.items.value.items };

    ghost size = { elements_size };

    ghost use Rattle.std.proofs.Common.{refl};
    ghost use Rattle.js_code.specs.Falls.{elements_fall};

    ghost size_decreases = { λ a h. elements_fall _ refl (λ e. refl) a.items.value.items };
}

impl Model for PairCodes {
    ghost use Rattle.std.specs.Prelude.{List, map};
    ghost use Rattle.js_tree.specs.declared.tree.Pair.{Pair};
    ghost use Rattle.js_tree.specs.contracts.tree.Pair as t;
    ghost use Rattle.std.specs.Coded.{coded_list};

    ghost Value = { List Pair };

    ghost coded = { coded_list t.the_row.coded };

    ghost use Rattle.js_code.specs.View.{pair_of};
    ghost use Rattle.js_code.specs.Size.{pairs_size};

    ghost view = { λ c. map pair_of c.items.value.items };

    ghost size = { pairs_size };

    ghost use Rattle.std.proofs.Common.{arith};
    ghost use Rattle.js_code.specs.Falls.{pairs_fall};

    ghost size_decreases = { λ a h. omega (arith, pairs_fall a.items.value.items) };
}

impl ExprCode {
    pub(crate) fn new(alloc: Global, node: ExprNode) -> Result<ExprCode, AllocError>
        requires { CostFits node }
        ensures { IfOk result (λ code. code ≡ roll-Expr (expr_layer node)) }
    {
        let node = Rc::new(alloc, node)?;
        Ok(ExprCode { node })
    }

    /// What kind of expression it is, with its parts.
    #[inline]
    pub fn node(&self) -> &ExprNode
        ensures tree { view.expr self.now ≡ expr_node_tree result.now }
        ensures cost { CostFits result.now }
    {
        &self.node
    }

    /// One more owner, in constant time.
    #[inline]
    pub fn share(&self) -> Result<ExprCode, AllocError>
        ensures { IfOk result (λ code. code ≡ self.now) }
    {
        let node = self.node.clone()?;
        Ok(ExprCode { node })
    }
}

impl ExprCodes {
    pub(crate) fn new(alloc: Global, items: Vec<ExprCode>) -> Result<ExprCodes, AllocError>
        ensures { IfOk result (λ codes. codes ≡ items.items) }
    {
        let items = Rc::new(alloc, items)?;
        Ok(ExprCodes { items })
    }

    /// The expressions in order.
    #[inline]
    pub fn items(&self) -> &[ExprCode]
        ensures { result.now ≡ self.now }
    {
        self.items.as_slice()
    }

    /// The expression at an index. None is behind the last one.
    #[inline]
    pub fn get(&self, at: usize) -> Option<&ExprCode>
        ensures { MatchOption result
            (exprs_from self.now at ≡ NoExprs)
            (λ e. exprs_from self.now at
            ≡ MoreExprs (view.expr e.now) (exprs_from self.now (at + 1))) }
    {
        let items = self.items();
        if at < items.len() {
            Some(&items[at])
        } else {
            None
        }
    }

    /// One more owner, in constant time.
    #[inline]
    pub fn share(&self) -> Result<ExprCodes, AllocError>
        ensures { IfOk result (λ codes. codes ≡ self.now) }
    {
        let items = self.items.clone()?;
        Ok(ExprCodes { items })
    }
}

impl ElementCodes {
    pub(crate) fn new(
        alloc: Global,
        items: Vec<Option<ExprCode>>,
    ) -> Result<ElementCodes, AllocError>
        ensures { IfOk result (λ codes. codes ≡ items.items) }
    {
        let items = Rc::new(alloc, items)?;
        Ok(ElementCodes { items })
    }

    /// The elements in order.
    #[inline]
    pub fn items(&self) -> &[Option<ExprCode>]
        ensures { result.now ≡ self.now }
    {
        self.items.as_slice()
    }

    /// The element at an index. None is behind the last one.
    #[inline]
    pub fn get(&self, at: usize) -> Option<&Option<ExprCode>>
        ensures { MatchOption result
            (elements_from self.now at ≡ NoElements)
            (λ e. elements_from self.now at
            ≡ MoreElements (parts.maybe_expr e.now) (elements_from self.now (at + 1))) }
    {
        let items = self.items();
        if at < items.len() {
            Some(&items[at])
        } else {
            None
        }
    }

    /// One more owner, in constant time.
    #[inline]
    pub fn share(&self) -> Result<ElementCodes, AllocError>
        ensures { IfOk result (λ codes. codes ≡ self.now) }
    {
        let items = self.items.clone()?;
        Ok(ElementCodes { items })
    }
}

impl PairCodes {
    pub(crate) fn new(alloc: Global, items: Vec<PairCode>) -> Result<PairCodes, AllocError>
        ensures { IfOk result (λ codes. codes ≡ map pair_of items.items) }
    {
        let items = Rc::new(alloc, items)?;
        Ok(PairCodes { items })
    }

    /// The pairs in order.
    #[inline]
    pub fn items(&self) -> &[PairCode]
        ensures { map pair_of result.now ≡ self.now }
    {
        self.items.as_slice()
    }

    /// The pair at an index. None is behind the last one.
    #[inline]
    #[tactic(auto, using(crate::proofs::Cursors::pair_at))]
    pub fn get(&self, at: usize) -> Option<&PairCode>
        ensures { MatchOption result
            (pairs_from self.now at ≡ NoPairs)
            (λ p. pairs_from self.now at
            ≡ MorePairs p.now.key (view.expr p.now.value) (pairs_from self.now (at + 1))) }
    {
        let items = self.items();
        if at < items.len() {
            Some(&items[at])
        } else {
            None
        }
    }

    /// One more owner, in constant time.
    #[inline]
    pub fn share(&self) -> Result<PairCodes, AllocError>
        ensures { IfOk result (λ codes. codes ≡ self.now) }
    {
        let items = self.items.clone()?;
        Ok(PairCodes { items })
    }
}
