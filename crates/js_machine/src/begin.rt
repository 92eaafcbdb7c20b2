//! Nodes are begun: what is built of the language, and what each node does once its step is taken.

ghost use Rattle.std.specs.Prelude.{◌≡◌, ◌∷◌, ◌≤◌, ◌<◌, ◌+◌, ◌*◌};
ghost use Rattle.std.specs.Prelude.{length, true, IfOk};
ghost use Rattle.js_tree.specs.Plain.{expr, stmt};
ghost use Rattle.js_machine.specs.NotBuilt.{StopsRightly};
ghost use Rattle.js_machine.specs.Built.{is_built_expression, is_built_prefix};
ghost use Rattle.js_machine.specs.Built.{is_built_statement, is_plain_jump, is_target};
ghost use Rattle.js_machine.specs.Rest.{Falls, Same, in_expr, in_stmt, rest};

use crate::frame::{Control, Frame};
use crate::machine::Machine;
use crate::members::{dot_of, has_member, is_member};
use crate::names::name_of;
use dl_text::Units;
use js_code::{ExprCode, ExprNode, ForInitNode, StmtCode, StmtNode};
use js_tree::PrefixOp;
use std::alloc::AllocError;

/// Numbers are below 2^53.
const NUMBERS: u64 = 1 << 53;

/// Whether an expression is a target: a name, a dot or an index.
pub(crate) fn is_target(e: &ExprCode) -> bool
    ensures { result ≡ is_target (expr e.now) }
{
    is_member(e) || name_of(e).is_some()
}

/// Whether the machine can begin an operator with this operand.
fn is_built_prefix(op: PrefixOp, operand: &ExprCode) -> bool
    ensures { result ≡ is_built_prefix op (expr operand.now) }
{
    match op {
        PrefixOp::Delete => true,
        PrefixOp::TypeOf => true,
        PrefixOp::Increment => is_target(operand),
        PrefixOp::Decrement => is_target(operand),
        PrefixOp::Void => true,
        PrefixOp::Plus => true,
        PrefixOp::Minus => true,
        PrefixOp::BitNot => true,
        PrefixOp::Not => true,
    }
}

/// Whether the machine can begin an expression.
pub(crate) fn is_built_expression(e: &ExprCode) -> bool
    ensures { result ≡ is_built_expression (expr e.now) }
{
    match e.node() {
        ExprNode::Num(n) => *n < NUMBERS,
        ExprNode::Str(_) => true,
        ExprNode::Bool(_) => true,
        ExprNode::Null => true,
        ExprNode::Binary(_, _, _, _) => true,
        ExprNode::And(_, _) => true,
        ExprNode::Or(_, _) => true,
        ExprNode::Comma(_, _) => true,
        ExprNode::Cond(_, _, _) => true,
        ExprNode::This => true,
        ExprNode::Name(_) => true,
        ExprNode::Array(_) => true,
        ExprNode::Object(_) => true,
        ExprNode::Func(_) => false,
        ExprNode::Dot(_, _) => true,
        ExprNode::Index(_, _) => true,
        ExprNode::Call(callee, _) => dot_of(callee).is_some(),
        ExprNode::New(_, _) => false,
        ExprNode::Postfix(target, _) => is_target(target),
        ExprNode::Prefix(op, _, operand) => is_built_prefix(*op, operand),
        ExprNode::Assign(_, target, _) => is_target(target),
        ExprNode::Late(_) => false,
    }
}

fn is_plain_jump(label: &Option<Units>) -> bool
    ensures { result ≡ is_plain_jump label.now }
{
    label.is_none()
}

/// Whether the machine can begin a statement.
pub(crate) fn is_built_statement(s: &StmtCode) -> bool
    ensures { result ≡ is_built_statement (stmt s.now) }
{
    match s.node() {
        StmtNode::Block(_) => true,
        StmtNode::Var(_) => true,
        StmtNode::Empty => true,
        StmtNode::Do(_) => true,
        StmtNode::If(_, _, _) => true,
        StmtNode::DoWhile(_, _) => true,
        StmtNode::While(_, _) => true,
        StmtNode::For(_, _, _, _) => true,
        StmtNode::Continue(label) => is_plain_jump(label),
        StmtNode::Break(label) => is_plain_jump(label),
        StmtNode::ForIn(_, _, _) => true,
        StmtNode::Return(_) => false,
        StmtNode::Switch(_, _) => false,
        StmtNode::Label(_, _) => false,
        StmtNode::Throw(_) => false,
        StmtNode::Try(_, _, _) => false,
        StmtNode::Declare(_) => false,
        StmtNode::Used(_) => false,
    }
}

impl Machine {
    /// An expression that is built, whose step was taken.
    #[tactic(auto, using(crate::proofs::BeginLaws::expressions_begun))]
    pub(crate) fn begin(&mut self, e: ExprCode) -> Result<Control, AllocError>
        requires { is_built_expression (expr e) ≡ true }
        ensures same { IfOk result (λ next. Same (in_expr (expr e)) self.old next self.new) }
        ensures falls { IfOk result (λ next. Falls self.old next self.new) }
        ensures rightly { IfOk result (λ next. StopsRightly next self.new) }
    {
        if has_member(&e) {
            return self.begin_target(e);
        }
        match e.node() {
            ExprNode::Num(n) => self.begin_num(*n),
            ExprNode::Str(text) => self.begin_text(text),
            ExprNode::Bool(b) => self.begin_truth(*b),
            ExprNode::Null => self.begin_null(),
            ExprNode::Name(name) => self.begin_name(name),
            ExprNode::Postfix(target, op) => self.begin_postfix(*op, target),
            ExprNode::Prefix(op, _, operand) => self.begin_prefix(*op, operand),
            ExprNode::Assign(None, target, right) => self.begin_assign(target, right),
            ExprNode::Assign(Some(op), target, right) => self.begin_assign_with(*op, target, right),
            ExprNode::Binary(op, _, left, right) => self.begin_binary(*op, left, right),
            ExprNode::And(left, right) => self.begin_and(left, right),
            ExprNode::Or(left, right) => self.begin_or(left, right),
            ExprNode::Comma(left, right) => self.begin_comma(left, right),
            ExprNode::Cond(test, first, second) => self.begin_cond(test, first, second),
            ExprNode::This => self.begin_this(),
            ExprNode::Array(elements) => self.begin_array(elements),
            ExprNode::Object(pairs) => self.begin_object(pairs),
            ExprNode::Func(_) => Ok(Control::Done),
            ExprNode::Dot(_, _) => self.begin_member(e),
            ExprNode::Index(_, _) => self.begin_member(e),
            ExprNode::Call(callee, arguments) => self.begin_call(callee, arguments),
            ExprNode::New(_, _) => Ok(Control::Done),
            ExprNode::Late(_) => Ok(Control::Done),
        }
    }

    /// The frame waits, while something else is done.
    #[inline]
    pub(crate) fn wait(&mut self, frame: Frame, next: Control) -> Result<Control, AllocError>
        ensures { IfOk result (λ c. (c ≡ next)
            × (self.new ≡ record self.old { frames = frame ∷ self.old.frames })) }
    {
        self.frames.push(frame)?;
        Ok(next)
    }

    /// A statement that is built, whose step was taken.
    #[tactic(auto, using(crate::proofs::BeginLaws::statements_begun))]
    pub(crate) fn begin_statement(&mut self, s: StmtCode) -> Result<Control, AllocError>
        requires { is_built_statement (stmt s) ≡ true }
        ensures same { IfOk result (λ next. Same (in_stmt (stmt s)) self.old next self.new) }
        ensures falls { IfOk result (λ next. Falls self.old next self.new) }
        ensures rightly { IfOk result (λ next. StopsRightly next self.new) }
    {
        match s.node() {
            StmtNode::Block(body) => self.begin_block(body),
            StmtNode::Var(items) => {
                let items = items.share()?;
                self.next_variable(items, 0)
            }
            StmtNode::Empty => Ok(Control::Done),
            StmtNode::Do(e) => self.begin_do(e),
            StmtNode::If(test, _, _) => {
                if self.push_at_once(test)? {
                    return self.give_if(s);
                }
                let test = test.share()?;
                self.wait(Frame::If(s), Control::Expr(test))
            }
            StmtNode::DoWhile(body, _) => {
                let body = body.share()?;
                self.wait(Frame::Turn(s), Control::Body(body))
            }
            StmtNode::While(_, _) => self.turn(s),
            StmtNode::For(ForInitNode::Nothing, _, _, _) => self.turn(s),
            StmtNode::For(ForInitNode::First(first), _, _, _) => {
                let first = first.share()?;
                self.wait(Frame::Again(s), Control::Expr(first))
            }
            StmtNode::For(ForInitNode::Vars(items), _, _, _) => {
                let items = items.share()?;
                self.next_in_header(items, 0, s)
            }
            StmtNode::Continue(None) => Ok(Control::Continue),
            StmtNode::Break(None) => Ok(Control::Break),
            StmtNode::Continue(Some(_)) => Ok(Control::Done),
            StmtNode::Break(Some(_)) => Ok(Control::Done),
            StmtNode::ForIn(_, _, _) => self.begin_for_in(s),
            StmtNode::Return(_) => Ok(Control::Done),
            StmtNode::Switch(_, _) => Ok(Control::Done),
            StmtNode::Label(_, _) => Ok(Control::Done),
            StmtNode::Throw(_) => Ok(Control::Done),
            StmtNode::Try(_, _, _) => Ok(Control::Done),
            StmtNode::Declare(_) => Ok(Control::Done),
            StmtNode::Used(_) => Ok(Control::Done),
        }
    }
}
