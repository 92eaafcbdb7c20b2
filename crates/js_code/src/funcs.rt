ghost use Rattle.std.specs.Prelude.{◌≡◌, IfOk, map};
ghost use Rattle.std.specs.Option.{option_copied};
ghost use Rattle.js_tree.specs.declared.tree.Expr.TheViews.{roll-Func};
ghost use Rattle.js_tree.specs.Plain as view;
ghost use Rattle.js_calls.specs.Declared.{functions_of, vars_in_all};
ghost use Rattle.js_code.specs.Bound.{Lists};
ghost use Rattle.js_code.specs.Projections.{body_of, formals_of, name_of, number_of, role_of};
ghost use Rattle.js_code.specs.View.{func_layer, func_node_tree};

use crate::stmts::StmtCodes;
use dl_text::{Names, Units};
use js_tree::Role;
use std::alloc::{AllocError, Global};
use std::marker::Model;
use std::mem::size_of;
use std::rc::Rc;

// Frames and function objects hold them.
const _: () = prove!(size_of::<FuncCode>() <= 8);

/// A function (ES3 section 13), which contracts see as its tree.
#[cycle(code)]
#[derive(Drop)]
pub struct FuncCode {
    node: Rc<FuncNode>,
}

/// The parts of a function.
#[cycle(code)]
#[derive(Drop)]
pub struct FuncNode {
    pub number: u32,
    pub name: Option<Units>,
    pub formals: Names,
    pub body: BodyCode,
    pub role: Role,
}

/// The statements of a script or of a function's body, with what they bind, listed once. Contracts
/// see the list of the statements' trees.
#[cycle(code)]
#[derive(Drop)]
pub struct BodyCode {
    statements: StmtCodes,
    functions: Vec<FuncCode>,
    variables: Names,
}

impl Model for FuncCode {
    ghost use Rattle.js_tree.specs.declared.tree.Func.{Func};
    ghost use Rattle.js_tree.specs.contracts.tree.Func as t;

    ghost Value = { Func };

    ghost coded = { t.the_row.coded };

    ghost use Rattle.js_tree.specs.declared.tree.Expr.TheViews.{roll-Func};
    ghost use Rattle.js_code.specs.Projections.{body_of, formals_of, name_of, number_of, role_of};
    ghost use Rattle.js_code.specs.View.{func_layer};
    ghost use Rattle.js_code.specs.Size.{func_size};

    ghost view = { λ c. roll-Func (func_layer c.node.value) };

    ghost size = { func_size };

    ghost use Rattle.std.proofs.Common.{arith};
    ghost use Rattle.js_code.specs.Falls.{func_falls};

    ghost size_decreases = { λ a h. omega (arith, func_falls a.node.value) };
}

impl Model for BodyCode {
    ghost use Rattle.std.specs.Prelude.{List};
    ghost use Rattle.js_tree.specs.declared.tree.Stmt.{Stmt};
    ghost use Rattle.js_tree.specs.contracts.tree.Stmt as t;
    ghost use Rattle.std.specs.Coded.{coded_list};

    ghost Value = { List Stmt };

    ghost coded = { coded_list t.the_row.coded };

    ghost use Rattle.js_code.specs.Bound.{Lists};
    ghost use Rattle.js_code.specs.Size.{body_size};

    ghost view = { λ c. c.statements };

    ghost invariant = { λ c. Lists c.functions.items c.variables c.statements };

    ghost size = { body_size };

    ghost use Rattle.std.proofs.Common.{arith};
    ghost use Rattle.js_code.specs.Falls.{body_falls};

    ghost size_decreases = { λ a h.
        omega (arith, body_falls a.statements a.functions.items a.variables h) };
}

impl FuncCode {
    pub(crate) fn new(alloc: Global, node: FuncNode) -> Result<FuncCode, AllocError>
        ensures { IfOk result (λ code. code ≡ roll-Func (func_layer node)) }
    {
        let node = Rc::new(alloc, node)?;
        Ok(FuncCode { node })
    }

    /// Its parts.
    #[inline]
    pub fn node(&self) -> &FuncNode
        ensures { view.func self.now ≡ func_node_tree result.now }
    {
        &self.node
    }

    /// Its number among the functions of all scripts, from 1 on.
    #[inline]
    pub fn number(&self) -> u32
        ensures { result ≡ number_of (view.func self.now) }
    {
        self.node().number
    }

    /// Its name, if it has one.
    #[inline]
    pub fn name(&self) -> Option<&Units>
        ensures { option_copied result ≡ name_of (view.func self.now) }
    {
        self.node().name.as_ref()
    }

    /// The names of its formal parameters, in order.
    #[inline]
    pub fn formals(&self) -> &Names
        ensures { result.now ≡ formals_of (view.func self.now) }
    {
        &self.node().formals
    }

    /// Its body, with what it binds.
    #[inline]
    pub fn body(&self) -> &BodyCode
        ensures { view.body result.now ≡ body_of (view.func self.now) }
    {
        &self.node().body
    }

    /// What it is in a written text.
    #[inline]
    pub fn role(&self) -> Role
        ensures { result ≡ role_of (view.func self.now) }
    {
        self.node().role
    }

    /// One more owner, in constant time.
    #[inline]
    pub fn share(&self) -> Result<FuncCode, AllocError>
        ensures { IfOk result (λ code. code ≡ self.now) }
    {
        let node = self.node.clone()?;
        Ok(FuncCode { node })
    }
}

impl BodyCode {
    pub(crate) fn new(statements: StmtCodes, functions: Vec<FuncCode>, variables: Names) -> BodyCode
        requires { Lists functions.items variables statements }
        ensures { result ≡ statements }
    {
        BodyCode {
            statements,
            functions,
            variables,
        }
    }

    /// The statements in order.
    #[inline]
    pub fn statements(&self) -> &StmtCodes
        ensures { result.now ≡ self.now }
    {
        &self.statements
    }

    /// The functions that stand directly in the body, in the order of the text (ES3 10.1.3).
    #[inline]
    pub fn functions(&self) -> &[FuncCode]
        ensures { map view.func result.now ≡ functions_of (view.body self.now) }
    {
        self.functions.as_slice()
    }

    /// The names of the `var` statements in the body, in the order of the text; a name stands there
    /// as often as in the text (ES3 10.1.3).
    #[inline]
    pub fn variables(&self) -> &Names
        ensures { result.now ≡ vars_in_all (view.body self.now) }
    {
        &self.variables
    }
}
