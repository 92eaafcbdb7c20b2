//! The operators of expressions, by their tokens (ES3 11.3 to 11.13).

ghost use Rattle.std.specs.Prelude.{◌≡◌, ◌≤◌, suc};
ghost use Rattle.std.specs.Option.{option_map};
ghost use Rattle.js_parser.specs.Machine as rule;
ghost use Rattle.js_tree.specs.Levels as levels;
ghost use Rattle.js_parser.specs.Operators as operators;
ghost use Rattle.js_parser.specs.Pieces as pieces;
ghost use Rattle.js_parser.specs.View as view;

use js_lexer::{Mark, TokenKind, Word};
use js_tree::{BinaryOp, PostfixOp, PrefixOp};

/// An operator between two operands (ES3 11.5 to 11.11).
#[derive(Clone, Copy)]
pub enum Operator {
    LogicalOr,
    LogicalAnd,
    Operation(BinaryOp),
}

impl Operator {
    /// How tightly the operator binds its operands.
    pub fn level(self) -> u8
        ensures is { result ≡ levels.level (view.operator self) }
        ensures most { result ≤ 13 }
    {
        match self {
            Operator::LogicalOr => 4,
            Operator::LogicalAnd => 5,
            Operator::Operation(op) => operation_level(op),
        }
    }

    /// The level of the operand behind the operator, which binds tighter.
    pub fn level_behind(self) -> u8
        ensures { result ≡ suc (levels.level (view.operator self)) }
    {
        self.level() + 1
    }

    /// Whether the operator may stand there: `in` stands only where it may.
    pub fn may_operate(self, with_in: bool) -> bool
        ensures { result ≡ operators.may_operate with_in (view.operator self) }
    {
        with_in || !matches!(self, Operator::Operation(BinaryOp::In))
    }
}

/// How tightly an operator binds its operands (ES3 11.5 to 11.10).
fn operation_level(op: BinaryOp) -> u8
    ensures is { result ≡ levels.operation_level op }
    ensures most { result ≤ 13 }
{
    match op {
        BinaryOp::BitOr => 6,
        BinaryOp::BitXor => 7,
        BinaryOp::BitAnd => 8,
        BinaryOp::Equal | BinaryOp::NotEqual | BinaryOp::Same | BinaryOp::NotSame => 9,
        BinaryOp::Less | BinaryOp::Greater | BinaryOp::LessEqual | BinaryOp::GreaterEqual => 10,
        BinaryOp::InstanceOf | BinaryOp::In => 10,
        BinaryOp::ShiftLeft | BinaryOp::ShiftRight | BinaryOp::ShiftRightUnsigned => 11,
        BinaryOp::Add | BinaryOp::Subtract => 12,
        BinaryOp::Multiply | BinaryOp::Divide | BinaryOp::Remainder => 13,
    }
}

/// The operator between two operands that a token is, if it is one.
pub fn operator_of(kind: &TokenKind) -> Option<Operator>
    ensures { option_map view.operator result ≡ rule.operator_of kind.now }
{
    let op = match kind {
        TokenKind::Mark(Mark::Or) => return Some(Operator::LogicalOr),
        TokenKind::Mark(Mark::And) => return Some(Operator::LogicalAnd),
        TokenKind::Mark(Mark::BitOr) => BinaryOp::BitOr,
        TokenKind::Mark(Mark::BitXor) => BinaryOp::BitXor,
        TokenKind::Mark(Mark::BitAnd) => BinaryOp::BitAnd,
        TokenKind::Mark(Mark::Equal) => BinaryOp::Equal,
        TokenKind::Mark(Mark::NotEqual) => BinaryOp::NotEqual,
        TokenKind::Mark(Mark::StrictEqual) => BinaryOp::Same,
        TokenKind::Mark(Mark::StrictNotEqual) => BinaryOp::NotSame,
        TokenKind::Mark(Mark::Less) => BinaryOp::Less,
        TokenKind::Mark(Mark::Greater) => BinaryOp::Greater,
        TokenKind::Mark(Mark::LessEqual) => BinaryOp::LessEqual,
        TokenKind::Mark(Mark::GreaterEqual) => BinaryOp::GreaterEqual,
        TokenKind::Word(Word::InstanceOf) => BinaryOp::InstanceOf,
        TokenKind::Word(Word::In) => BinaryOp::In,
        TokenKind::Mark(Mark::ShiftLeft) => BinaryOp::ShiftLeft,
        TokenKind::Mark(Mark::ShiftRight) => BinaryOp::ShiftRight,
        TokenKind::Mark(Mark::ShiftRightUnsigned) => BinaryOp::ShiftRightUnsigned,
        TokenKind::Mark(Mark::Plus) => BinaryOp::Add,
        TokenKind::Mark(Mark::Minus) => BinaryOp::Subtract,
        TokenKind::Mark(Mark::Times) => BinaryOp::Multiply,
        TokenKind::Mark(Mark::Slash) => BinaryOp::Divide,
        TokenKind::Mark(Mark::Percent) => BinaryOp::Remainder,
        _ => return None,
    };
    Some(Operator::Operation(op))
}

/// The prefix operator that a token is, if it is one (ES3 11.4).
pub fn prefix_of(kind: &TokenKind) -> Option<PrefixOp>
    ensures { result ≡ rule.prefix_of kind.now }
{
    match kind {
        TokenKind::Word(Word::Delete) => Some(PrefixOp::Delete),
        TokenKind::Word(Word::Void) => Some(PrefixOp::Void),
        TokenKind::Word(Word::TypeOf) => Some(PrefixOp::TypeOf),
        TokenKind::Mark(Mark::PlusPlus) => Some(PrefixOp::Increment),
        TokenKind::Mark(Mark::MinusMinus) => Some(PrefixOp::Decrement),
        TokenKind::Mark(Mark::Plus) => Some(PrefixOp::Plus),
        TokenKind::Mark(Mark::Minus) => Some(PrefixOp::Minus),
        TokenKind::Mark(Mark::BitNot) => Some(PrefixOp::BitNot),
        TokenKind::Mark(Mark::Not) => Some(PrefixOp::Not),
        _ => None,
    }
}

/// Whether a prefix operator changes its operand, as `++` and `--` do.
pub fn changes(op: PrefixOp) -> bool
    ensures { result ≡ levels.changes op }
{
    matches!(op, PrefixOp::Increment | PrefixOp::Decrement)
}

/// The operator of an assignment that a token is, if it is one; None is `=` (ES3 11.13).
pub fn assignment_of(kind: &TokenKind) -> Option<Option<BinaryOp>>
    ensures { result ≡ pieces.assignment_of kind.now }
{
    match kind {
        TokenKind::Mark(Mark::Assign) => Some(None),
        TokenKind::Mark(Mark::TimesAssign) => Some(Some(BinaryOp::Multiply)),
        TokenKind::Mark(Mark::SlashAssign) => Some(Some(BinaryOp::Divide)),
        TokenKind::Mark(Mark::PercentAssign) => Some(Some(BinaryOp::Remainder)),
        TokenKind::Mark(Mark::PlusAssign) => Some(Some(BinaryOp::Add)),
        TokenKind::Mark(Mark::MinusAssign) => Some(Some(BinaryOp::Subtract)),
        TokenKind::Mark(Mark::ShiftLeftAssign) => Some(Some(BinaryOp::ShiftLeft)),
        TokenKind::Mark(Mark::ShiftRightAssign) => Some(Some(BinaryOp::ShiftRight)),
        TokenKind::Mark(Mark::ShiftRightUnsignedAssign) => Some(Some(BinaryOp::ShiftRightUnsigned)),
        TokenKind::Mark(Mark::BitAndAssign) => Some(Some(BinaryOp::BitAnd)),
        TokenKind::Mark(Mark::BitXorAssign) => Some(Some(BinaryOp::BitXor)),
        TokenKind::Mark(Mark::BitOrAssign) => Some(Some(BinaryOp::BitOr)),
        _ => None,
    }
}

/// The postfix operator that a token on the line is, if it is one (ES3 11.3).
pub fn postfix_of(kind: &TokenKind, newline: bool) -> Option<PostfixOp>
    ensures { result ≡ pieces.postfix_by kind.now newline }
{
    match kind {
        TokenKind::Mark(Mark::PlusPlus) if !newline => Some(PostfixOp::Increment),
        TokenKind::Mark(Mark::MinusMinus) if !newline => Some(PostfixOp::Decrement),
        _ => None,
    }
}
