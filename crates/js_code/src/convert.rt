//! The code of trees: each node once, and each name shared with its tree.

ghost use Rattle.std.specs.Prelude.{◌≡◌, IfOk, map};
ghost use Rattle.js_tree.specs.declared.tree.Expr.TheViews.{roll-Expr, roll-Stmt};
ghost use Rattle.js_tree.specs.Plain as view;
ghost use Rattle.js_code.specs.Costs.{CostFits};
ghost use Rattle.js_code.specs.View.{case_of, expr_layer, for_init_of, for_target_of, pair_of};
ghost use Rattle.js_code.specs.View.{stmt_layer, var_item_of};

use crate::bindings::{functions_in, variables_in};
use crate::exprs::{ElementCodes, ExprCode, ExprCodes, ExprNode, PairCode, PairCodes};
use crate::funcs::{BodyCode, FuncCode, FuncNode};
use crate::stmts::{
    CaseCode, CaseCodes, ForInitNode, ForTargetNode, StmtCode, StmtCodes, StmtNode, VarCode,
    VarCodes,
};
use dl_text::{Listed, TryCopy, Units};
use js_tree::{
    Boxed, Case, Cases, Elements, Expr, Exprs, ForInit, ForTarget, Func, Pair, Pairs, Script, Stmt,
    Stmts, VarItem, VarItems,
};
use std::alloc::{AllocError, Global};

impl ExprCode {
    /// The code of an expression, in time linear in its tree.
    pub fn of(alloc: Global, expr: &Expr) -> Result<ExprCode, AllocError>
        ensures { IfOk result (λ code. view.expr code ≡ view.expr expr.now) }
    {
        code_of_expr(alloc, expr)
    }
}

impl StmtCode {
    /// The code of a statement, in time linear in its tree.
    pub fn of(alloc: Global, stmt: &Stmt) -> Result<StmtCode, AllocError>
        ensures { IfOk result (λ code. view.stmt code ≡ view.stmt stmt.now) }
    {
        code_of_stmt(alloc, stmt)
    }
}

impl FuncCode {
    /// The code of a function, in time linear in its tree.
    pub fn of(alloc: Global, func: &Func) -> Result<FuncCode, AllocError>
        ensures { IfOk result (λ code. view.func code ≡ view.func func.now) }
    {
        code_of_func(alloc, func)
    }
}

impl BodyCode {
    /// The code of a script, in time linear in its tree.
    pub fn of_script(alloc: Global, script: &Script) -> Result<BodyCode, AllocError>
        ensures { IfOk result (λ code. view.body code ≡ view.script script.now) }
    {
        code_of_body(alloc, &script.body)
    }
}

fn code_of_name(name: &Option<Units>, alloc: Global) -> Result<Option<Units>, AllocError>
    ensures { IfOk result (λ code. code ≡ name.now) }
{
    match name {
        None => Ok(None),
        Some(name) => Ok(Some(name.copy(alloc)?)),
    }
}

#[cycle(convert)]
fn code_of_func(alloc: Global, func: &Func) -> Result<FuncCode, AllocError>
    ensures { IfOk result (λ code. code ≡ func.now) }
{
    let node = FuncNode {
        number: func.number,
        name: code_of_name(&func.name, alloc)?,
        formals: func.formals.copy(alloc)?,
        body: code_of_body(alloc, &func.body)?,
        role: func.role,
    };
    FuncCode::new(alloc, node)
}

#[cycle(convert)]
fn code_of_body(alloc: Global, body: &Stmts) -> Result<BodyCode, AllocError>
    ensures { IfOk result (λ code. code ≡ body.now) }
{
    let statements = code_of_stmts(alloc, body)?;
    let functions = functions_in(alloc, &statements)?;
    let variables = variables_in(alloc, body)?;
    Ok(BodyCode::new(statements, functions, variables))
}

#[cycle(convert)]
fn code_of_stmts(alloc: Global, stmts: &Stmts) -> Result<StmtCodes, AllocError>
    ensures { IfOk result (λ code. code ≡ stmts.now) }
{
    let mut items = Vec::with_capacity(alloc, stmts.items().len())?;
    for stmt in stmts.items() {
        items.push(code_of_stmt(alloc, stmt)?)?;
    }
    StmtCodes::new(alloc, items)
}

#[cycle(convert)]
fn code_of_boxed(alloc: Global, expr: &Boxed<Expr>) -> Result<ExprCode, AllocError>
    ensures { IfOk result (λ code. code ≡ expr.now) }
{
    code_of_expr(alloc, expr.get())
}

#[cycle(convert)]
fn code_of_expr(alloc: Global, expr: &Expr) -> Result<ExprCode, AllocError>
    ensures { IfOk result (λ code. code ≡ expr.now) }
{
    let node = expr_node(alloc, expr)?;
    ExprCode::new(alloc, node)
}

#[cycle(convert)]
fn expr_node(alloc: Global, expr: &Expr) -> Result<ExprNode, AllocError>
    ensures tree { IfOk result (λ node. roll-Expr (expr_layer node) ≡ expr.now) }
    ensures cost { IfOk result CostFits }
{
    match expr {
        Expr::Num(number) => Ok(ExprNode::Num(*number)),
        Expr::Str(text) => Ok(ExprNode::Str(text.copy(alloc)?)),
        Expr::Bool(value) => Ok(ExprNode::Bool(*value)),
        Expr::Null => Ok(ExprNode::Null),
        Expr::This => Ok(ExprNode::This),
        Expr::Name(name) => Ok(ExprNode::Name(name.copy(alloc)?)),
        Expr::Array(elements) => Ok(ExprNode::Array(code_of_elements(alloc, elements)?)),
        Expr::Object(pairs) => Ok(ExprNode::Object(code_of_pairs(alloc, pairs)?)),
        Expr::Func(func) => Ok(ExprNode::Func(code_of_func(alloc, func.get())?)),
        Expr::Dot(object, name) => {
            Ok(ExprNode::Dot(code_of_boxed(alloc, object)?, name.copy(alloc)?))
        }
        Expr::Index(object, key) => {
            Ok(ExprNode::Index(code_of_boxed(alloc, object)?, code_of_boxed(alloc, key)?))
        }
        Expr::Call(callee, arguments) => {
            Ok(ExprNode::Call(
                code_of_boxed(alloc, callee)?,
                code_of_exprs(alloc, arguments)?,
            ))
        }
        Expr::New(callee, arguments) => {
            Ok(ExprNode::New(
                code_of_boxed(alloc, callee)?,
                code_of_exprs(alloc, arguments)?,
            ))
        }
        Expr::Postfix(target, op) => Ok(ExprNode::Postfix(code_of_boxed(alloc, target)?, *op)),
        Expr::Prefix(op, operand) => Ok(ExprNode::prefix(*op, code_of_boxed(alloc, operand)?)),
        Expr::Binary(op, left, right) => {
            let left = code_of_boxed(alloc, left)?;
            Ok(ExprNode::binary(*op, left, code_of_boxed(alloc, right)?))
        }
        Expr::And(left, right) => {
            Ok(ExprNode::And(code_of_boxed(alloc, left)?, code_of_boxed(alloc, right)?))
        }
        Expr::Or(left, right) => {
            Ok(ExprNode::Or(code_of_boxed(alloc, left)?, code_of_boxed(alloc, right)?))
        }
        Expr::Comma(left, right) => {
            Ok(ExprNode::Comma(code_of_boxed(alloc, left)?, code_of_boxed(alloc, right)?))
        }
        Expr::Cond(test, then, other) => Ok(ExprNode::Cond(
            code_of_boxed(alloc, test)?,
            code_of_boxed(alloc, then)?,
            code_of_boxed(alloc, other)?,
        )),
        Expr::Assign(op, target, value) => {
            Ok(ExprNode::Assign(
                *op,
                code_of_boxed(alloc, target)?,
                code_of_boxed(alloc, value)?,
            ))
        }
        Expr::Late(entry) => Ok(ExprNode::Late(*entry)),
    }
}

#[cycle(convert)]
fn code_of_maybe(alloc: Global, expr: &Option<Expr>) -> Result<Option<ExprCode>, AllocError>
    ensures { IfOk result (λ code. code ≡ expr.now) }
{
    match expr {
        None => Ok(None),
        Some(expr) => Ok(Some(code_of_expr(alloc, expr)?)),
    }
}

#[cycle(convert)]
fn code_of_exprs(alloc: Global, exprs: &Exprs) -> Result<ExprCodes, AllocError>
    ensures { IfOk result (λ code. code ≡ exprs.now) }
{
    let mut items = Vec::with_capacity(alloc, exprs.items().len())?;
    for expr in exprs.items() {
        items.push(code_of_expr(alloc, expr)?)?;
    }
    ExprCodes::new(alloc, items)
}

#[cycle(convert)]
fn code_of_elements(alloc: Global, elements: &Elements) -> Result<ElementCodes, AllocError>
    ensures { IfOk result (λ code. code ≡ elements.now) }
{
    let mut items = Vec::with_capacity(alloc, elements.items().len())?;
    for element in elements.items() {
        // The match stands here, since a call on `element` has no measure that the check finds.
        let element = match element {
            None => None,
            Some(expr) => Some(code_of_expr(alloc, expr)?),
        };
        items.push(element)?;
    }
    ElementCodes::new(alloc, items)
}

#[cycle(convert)]
fn code_of_pair(alloc: Global, pair: &Pair) -> Result<PairCode, AllocError>
    ensures { IfOk result (λ code. pair_of code ≡ pair.now) }
{
    Ok(PairCode {
        key: pair.key.copy(alloc)?,
        value: code_of_expr(alloc, &pair.value)?,
    })
}

#[cycle(convert)]
fn code_of_pairs(alloc: Global, pairs: &Pairs) -> Result<PairCodes, AllocError>
    ensures { IfOk result (λ code. code ≡ pairs.now) }
{
    let mut items = Vec::with_capacity(alloc, pairs.items().len())?;
    for pair in pairs.items() {
        items.push(code_of_pair(alloc, pair)?)?;
    }
    PairCodes::new(alloc, items)
}

#[cycle(convert)]
fn code_of_stmt(alloc: Global, stmt: &Stmt) -> Result<StmtCode, AllocError>
    ensures { IfOk result (λ code. code ≡ stmt.now) }
{
    let node = stmt_node(alloc, stmt)?;
    StmtCode::new(alloc, node)
}

#[cycle(convert)]
fn stmt_node(alloc: Global, stmt: &Stmt) -> Result<StmtNode, AllocError>
    ensures { IfOk result (λ node. roll-Stmt (stmt_layer node) ≡ stmt.now) }
{
    match stmt {
        Stmt::Block(body) => Ok(StmtNode::Block(code_of_stmts(alloc, body)?)),
        Stmt::Var(items) => Ok(StmtNode::Var(code_of_var_items(alloc, items)?)),
        Stmt::Empty => Ok(StmtNode::Empty),
        Stmt::Do(expr) => Ok(StmtNode::Do(code_of_expr(alloc, expr)?)),
        Stmt::If(test, then, other) => Ok(StmtNode::If(
            code_of_expr(alloc, test)?,
            code_of_stmt(alloc, then.get())?,
            code_of_maybe_stmt(alloc, other)?,
        )),
        Stmt::DoWhile(body, test) => {
            Ok(StmtNode::DoWhile(code_of_stmt(alloc, body.get())?, code_of_expr(alloc, test)?))
        }
        Stmt::While(test, body) => {
            Ok(StmtNode::While(code_of_expr(alloc, test)?, code_of_stmt(alloc, body.get())?))
        }
        Stmt::For(first, test, next, body) => Ok(StmtNode::For(
            code_of_for_init(alloc, first)?,
            code_of_maybe(alloc, test)?,
            code_of_maybe(alloc, next)?,
            code_of_stmt(alloc, body.get())?,
        )),
        Stmt::ForIn(target, object, body) => Ok(StmtNode::ForIn(
            code_of_for_target(alloc, target)?,
            code_of_expr(alloc, object)?,
            code_of_stmt(alloc, body.get())?,
        )),
        Stmt::Continue(label) => Ok(StmtNode::Continue(code_of_name(label, alloc)?)),
        Stmt::Break(label) => Ok(StmtNode::Break(code_of_name(label, alloc)?)),
        Stmt::Return(value) => Ok(StmtNode::Return(code_of_maybe(alloc, value)?)),
        Stmt::Switch(value, cases) => {
            Ok(StmtNode::Switch(code_of_expr(alloc, value)?, code_of_cases(alloc, cases)?))
        }
        Stmt::Label(name, body) => {
            Ok(StmtNode::Label(name.copy(alloc)?, code_of_stmt(alloc, body.get())?))
        }
        Stmt::Throw(expr) => Ok(StmtNode::Throw(code_of_expr(alloc, expr)?)),
        Stmt::Try(block, handler, last) => Ok(StmtNode::Try(
            code_of_stmt(alloc, block.get())?,
            code_of_handler(alloc, handler)?,
            code_of_maybe_stmt(alloc, last)?,
        )),
        Stmt::Declare(func) => Ok(StmtNode::Declare(code_of_func(alloc, func)?)),
        Stmt::Used(entry) => Ok(StmtNode::Used(*entry)),
    }
}

/// An `else` or a `finally`.
#[cycle(convert)]
fn code_of_maybe_stmt(
    alloc: Global,
    stmt: &Option<Boxed<Stmt>>,
) -> Result<Option<StmtCode>, AllocError>
    ensures { IfOk result (λ code. code ≡ stmt.now) }
{
    match stmt {
        None => Ok(None),
        Some(stmt) => Ok(Some(code_of_stmt(alloc, stmt.get())?)),
    }
}

/// A `catch` with its name.
#[cycle(convert)]
fn code_of_handler(
    alloc: Global,
    handler: &Option<(Units, Boxed<Stmt>)>,
) -> Result<Option<(Units, StmtCode)>, AllocError>
    ensures { IfOk result (λ code. code ≡ handler.now) }
{
    match handler {
        None => Ok(None),
        Some((name, block)) => {
            let name = name.copy(alloc)?;
            let block = code_of_stmt(alloc, block.get())?;
            Ok(Some((name, block)))
        }
    }
}

#[cycle(convert)]
fn code_of_for_init(alloc: Global, first: &ForInit) -> Result<ForInitNode, AllocError>
    ensures { IfOk result (λ code. for_init_of code ≡ first.now) }
{
    match first {
        ForInit::Nothing => Ok(ForInitNode::Nothing),
        ForInit::Vars(items) => Ok(ForInitNode::Vars(code_of_var_items(alloc, items)?)),
        ForInit::First(expr) => Ok(ForInitNode::First(code_of_expr(alloc, expr)?)),
    }
}

#[cycle(convert)]
fn code_of_for_target(alloc: Global, target: &ForTarget) -> Result<ForTargetNode, AllocError>
    ensures { IfOk result (λ code. for_target_of code ≡ target.now) }
{
    match target {
        ForTarget::Var(item) => Ok(ForTargetNode::Var(code_of_var_item(alloc, item)?)),
        ForTarget::Target(expr) => Ok(ForTargetNode::Target(code_of_expr(alloc, expr)?)),
    }
}

#[cycle(convert)]
fn code_of_var_item(alloc: Global, item: &VarItem) -> Result<VarCode, AllocError>
    ensures { IfOk result (λ code. var_item_of code ≡ item.now) }
{
    Ok(VarCode {
        name: item.name.copy(alloc)?,
        value: code_of_maybe(alloc, &item.value)?,
    })
}

#[cycle(convert)]
fn code_of_var_items(alloc: Global, var_items: &VarItems) -> Result<VarCodes, AllocError>
    ensures { IfOk result (λ code. code ≡ var_items.now) }
{
    let mut items = Vec::with_capacity(alloc, var_items.items().len())?;
    for item in var_items.items() {
        items.push(code_of_var_item(alloc, item)?)?;
    }
    VarCodes::new(alloc, items)
}

#[cycle(convert)]
fn code_of_case(alloc: Global, case: &Case) -> Result<CaseCode, AllocError>
    ensures { IfOk result (λ code. case_of code ≡ case.now) }
{
    Ok(CaseCode {
        test: code_of_maybe(alloc, &case.test)?,
        body: code_of_stmts(alloc, &case.body)?,
    })
}

#[cycle(convert)]
fn code_of_cases(alloc: Global, cases: &Cases) -> Result<CaseCodes, AllocError>
    ensures { IfOk result (λ code. code ≡ cases.now) }
{
    let mut items = Vec::with_capacity(alloc, cases.items().len())?;
    for case in cases.items() {
        items.push(code_of_case(alloc, case)?)?;
    }
    CaseCodes::new(alloc, items)
}
