ghost use Rattle.std.specs.Prelude.{◌≡◌, ◌+◌, IfOk, MatchOption, map};
ghost use Rattle.js_tree.specs.declared.tree.Expr.TheViews.{roll-Stmt};
ghost use Rattle.js_tree.specs.Tree.{MoreCases, MoreStmts, MoreVarItems};
ghost use Rattle.js_tree.specs.Tree.{NoCases, NoStmts, NoVarItems};
ghost use Rattle.js_tree.specs.Parts as parts;
ghost use Rattle.js_tree.specs.Plain as view;
ghost use Rattle.js_code.specs.Cursors.{cases_from, stmts_from, var_items_from};
ghost use Rattle.js_code.specs.View.{case_of, stmt_layer, stmt_node_tree, var_item_of};

use crate::exprs::ExprCode;
use crate::funcs::FuncCode;
use dl_text::Units;
use std::alloc::{AllocError, Global};
use std::marker::Model;
use std::mem::size_of;
use std::rc::Rc;

// Frames hold them.
const _: () = prove!(size_of::<StmtCode>() <= 8);

const _: () = prove!(size_of::<StmtCodes>() <= 8);

const _: () = prove!(size_of::<VarCodes>() <= 8);

const _: () = prove!(size_of::<CaseCodes>() <= 8);

/// A statement (ES3 section 12) or a declaration (ES3 section 13), which contracts see as its tree.
#[cycle(code)]
#[derive(Drop)]
pub struct StmtCode {
    node: Rc<StmtNode>,
}

/// What kind of statement it is, with its parts. The kinds are those of `js_tree::Stmt`.
#[cycle(code)]
#[derive(Drop)]
pub enum StmtNode {
    Block(StmtCodes),
    Var(VarCodes),
    Empty,
    Do(ExprCode),
    If(ExprCode, StmtCode, Option<StmtCode>),
    DoWhile(StmtCode, ExprCode),
    While(ExprCode, StmtCode),
    For(ForInitNode, Option<ExprCode>, Option<ExprCode>, StmtCode),
    ForIn(ForTargetNode, ExprCode, StmtCode),
    Continue(Option<Units>),
    Break(Option<Units>),
    Return(Option<ExprCode>),
    Switch(ExprCode, CaseCodes),
    Label(Units, StmtCode),
    Throw(ExprCode),
    Try(StmtCode, Option<(Units, StmtCode)>, Option<StmtCode>),
    Declare(FuncCode),
    Used(u32),
}

/// The first part of a `for` header.
#[cycle(code)]
#[derive(Drop)]
pub enum ForInitNode {
    Nothing,
    Vars(VarCodes),
    First(ExprCode),
}

/// What a `for-in` assigns to.
#[cycle(code)]
#[derive(Drop)]
pub enum ForTargetNode {
    Var(VarCode),
    Target(ExprCode),
}

/// A list of statements, which contracts see as the list of their trees.
#[cycle(code)]
#[derive(Drop)]
pub struct StmtCodes {
    items: Rc<Vec<StmtCode>>,
}

/// The declarators of a `var` list.
#[cycle(code)]
#[derive(Drop)]
pub struct VarCodes {
    items: Rc<Vec<VarCode>>,
}

/// A declarator of a `var` list.
#[cycle(code)]
#[derive(Drop)]
pub struct VarCode {
    pub name: Units,
    pub value: Option<ExprCode>,
}

/// The clauses of a `switch`.
#[cycle(code)]
#[derive(Drop)]
pub struct CaseCodes {
    items: Rc<Vec<CaseCode>>,
}

/// A clause of a `switch`; a test of None is `default`.
#[cycle(code)]
#[derive(Drop)]
pub struct CaseCode {
    pub test: Option<ExprCode>,
    pub body: StmtCodes,
}

impl Model for StmtCode {
    ghost use Rattle.js_tree.specs.declared.tree.Stmt.{Stmt};
    ghost use Rattle.js_tree.specs.contracts.tree.Stmt as t;

    ghost Value = { Stmt };

    ghost coded = { t.the_row.coded };

    ghost use Rattle.js_tree.specs.declared.tree.Expr.TheViews.{roll-Stmt};
    ghost use Rattle.js_code.specs.View.{stmt_layer};
    ghost use Rattle.js_code.specs.Size.{stmt_size};

    ghost view = { λ c. roll-Stmt (stmt_layer c.node.value) };

    ghost size = { stmt_size };

    ghost use Rattle.std.proofs.Common.{arith};
    ghost use Rattle.js_code.specs.Falls.{stmt_falls};

    ghost size_decreases = { λ a h. omega (arith, stmt_falls a.node.value) };
}

impl Model for StmtCodes {
    ghost use Rattle.std.specs.Prelude.{List};
    ghost use Rattle.js_tree.specs.declared.tree.Stmt.{Stmt};
    ghost use Rattle.js_tree.specs.contracts.tree.Stmt as t;
    ghost use Rattle.std.specs.Coded.{coded_list};

    ghost Value = { List Stmt };

    ghost coded = { coded_list t.the_row.coded };

    ghost use Rattle.js_code.specs.Size.{stmts_size};

    ghost view = { λ c. c.items.value.items };

    ghost size = { stmts_size };

    ghost use Rattle.std.proofs.Common.{arith};
    ghost use Rattle.js_code.specs.Falls.{stmts_fall};

    ghost size_decreases = { λ a h. omega (arith, stmts_fall a.items.value.items) };
}

impl Model for VarCodes {
    ghost use Rattle.std.specs.Prelude.{List, map};
    ghost use Rattle.js_tree.specs.declared.tree.VarItem.{VarItem};
    ghost use Rattle.js_tree.specs.contracts.tree.VarItem as t;
    ghost use Rattle.std.specs.Coded.{coded_list};

    ghost Value = { List VarItem };

    ghost coded = { coded_list t.the_row.coded };

    ghost use Rattle.js_code.specs.View.{var_item_of};
    ghost use Rattle.js_code.specs.Size.{var_items_size};

    ghost view = { λ c. map var_item_of c.items.value.items };

    ghost size = { var_items_size };

    ghost use Rattle.std.proofs.Common.{arith};
    ghost use Rattle.js_code.specs.Falls.{var_items_fall};

    ghost size_decreases = { λ a h. omega (arith, var_items_fall a.items.value.items) };
}

impl Model for CaseCodes {
    ghost use Rattle.std.specs.Prelude.{List, map};
    ghost use Rattle.js_tree.specs.declared.tree.Case.{Case};
    ghost use Rattle.js_tree.specs.contracts.tree.Case as t;
    ghost use Rattle.std.specs.Coded.{coded_list};

    ghost Value = { List Case };

    ghost coded = { coded_list t.the_row.coded };

    ghost use Rattle.js_code.specs.View.{case_of};
    ghost use Rattle.js_code.specs.Size.{cases_size};

    ghost view = { λ c. map case_of c.items.value.items };

    ghost size = { cases_size };

    ghost use Rattle.std.proofs.Common.{arith};
    ghost use Rattle.js_code.specs.Falls.{cases_fall};

    ghost size_decreases = { λ a h. omega (arith, cases_fall a.items.value.items) };
}

impl StmtCode {
    pub(crate) fn new(alloc: Global, node: StmtNode) -> Result<StmtCode, AllocError>
        ensures { IfOk result (λ code. code ≡ roll-Stmt (stmt_layer node)) }
    {
        let node = Rc::new(alloc, node)?;
        Ok(StmtCode { node })
    }

    /// What kind of statement it is, with its parts.
    #[inline]
    pub fn node(&self) -> &StmtNode
        ensures { view.stmt self.now ≡ stmt_node_tree result.now }
    {
        &self.node
    }

    /// One more owner, in constant time.
    #[inline]
    pub fn share(&self) -> Result<StmtCode, AllocError>
        ensures { IfOk result (λ code. code ≡ self.now) }
    {
        let node = self.node.clone()?;
        Ok(StmtCode { node })
    }
}

impl StmtCodes {
    pub(crate) fn new(alloc: Global, items: Vec<StmtCode>) -> Result<StmtCodes, AllocError>
        ensures { IfOk result (λ codes. codes ≡ items.items) }
    {
        let items = Rc::new(alloc, items)?;
        Ok(StmtCodes { items })
    }

    /// The statements in order.
    #[inline]
    pub fn items(&self) -> &[StmtCode]
        ensures { result.now ≡ self.now }
    {
        self.items.as_slice()
    }

    /// The statement at an index. None is behind the last one.
    #[inline]
    pub fn get(&self, at: usize) -> Option<&StmtCode>
        ensures { MatchOption result
            (stmts_from self.now at ≡ NoStmts)
            (λ s. stmts_from self.now at
            ≡ MoreStmts (view.stmt s.now) (stmts_from self.now (at + 1))) }
    {
        let items = self.items();
        if at < items.len() {
            Some(&items[at])
        } else {
            None
        }
    }

    /// One more owner, in constant time.
    #[inline]
    pub fn share(&self) -> Result<StmtCodes, AllocError>
        ensures { IfOk result (λ codes. codes ≡ self.now) }
    {
        let items = self.items.clone()?;
        Ok(StmtCodes { items })
    }
}

impl VarCodes {
    pub(crate) fn new(alloc: Global, items: Vec<VarCode>) -> Result<VarCodes, AllocError>
        ensures { IfOk result (λ codes. codes ≡ map var_item_of items.items) }
    {
        let items = Rc::new(alloc, items)?;
        Ok(VarCodes { items })
    }

    /// The declarators in order.
    #[inline]
    pub fn items(&self) -> &[VarCode]
        ensures { map var_item_of result.now ≡ self.now }
    {
        self.items.as_slice()
    }

    /// The declarator at an index. None is behind the last one.
    #[inline]
    #[tactic(auto, using(crate::proofs::Cursors::var_item_at))]
    pub fn get(&self, at: usize) -> Option<&VarCode>
        ensures { MatchOption result
            (var_items_from self.now at ≡ NoVarItems)
            (λ v. var_items_from self.now at
            ≡ MoreVarItems v.now.name (parts.maybe_expr v.now.value)
            (var_items_from self.now (at + 1))) }
    {
        let items = self.items();
        if at < items.len() {
            Some(&items[at])
        } else {
            None
        }
    }

    /// One more owner, in constant time.
    #[inline]
    pub fn share(&self) -> Result<VarCodes, AllocError>
        ensures { IfOk result (λ codes. codes ≡ self.now) }
    {
        let items = self.items.clone()?;
        Ok(VarCodes { items })
    }
}

impl CaseCodes {
    pub(crate) fn new(alloc: Global, items: Vec<CaseCode>) -> Result<CaseCodes, AllocError>
        ensures { IfOk result (λ codes. codes ≡ map case_of items.items) }
    {
        let items = Rc::new(alloc, items)?;
        Ok(CaseCodes { items })
    }

    /// The clauses in order.
    #[inline]
    pub fn items(&self) -> &[CaseCode]
        ensures { map case_of result.now ≡ self.now }
    {
        self.items.as_slice()
    }

    /// The clause at an index. None is behind the last one.
    #[inline]
    #[tactic(auto, using(crate::proofs::Cursors::clause_at))]
    pub fn get(&self, at: usize) -> Option<&CaseCode>
        ensures { MatchOption result
            (cases_from self.now at ≡ NoCases)
            (λ c. cases_from self.now at
            ≡ MoreCases (parts.maybe_expr c.now.test) (view.body c.now.body)
            (cases_from self.now (at + 1))) }
    {
        let items = self.items();
        if at < items.len() {
            Some(&items[at])
        } else {
            None
        }
    }

    /// One more owner, in constant time.
    #[inline]
    pub fn share(&self) -> Result<CaseCodes, AllocError>
        ensures { IfOk result (λ codes. codes ≡ self.now) }
    {
        let items = self.items.clone()?;
        Ok(CaseCodes { items })
    }
}
