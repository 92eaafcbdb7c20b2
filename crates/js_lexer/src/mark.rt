ghost use Rattle.std.specs.Prelude.{◌≡◌};
ghost use Rattle.std.specs.List.{find};
ghost use Rattle.js_lexer.specs.Characters.{begins};
ghost use Rattle.js_lexer.specs.Marks as spec;

use crate::characters::begins;

/// A mark (ES3 7.7).
#[derive(Clone, Copy, Debug, PartialEq, Eq)]
pub enum Mark {
    OpenBrace,
    CloseBrace,
    OpenParenthesis,
    CloseParenthesis,
    OpenBracket,
    CloseBracket,
    Dot,
    Semicolon,
    Comma,
    Less,
    Greater,
    LessEqual,
    GreaterEqual,
    Equal,
    NotEqual,
    StrictEqual,
    StrictNotEqual,
    Plus,
    Minus,
    Times,
    Slash,
    Percent,
    PlusPlus,
    MinusMinus,
    ShiftLeft,
    ShiftRight,
    ShiftRightUnsigned,
    BitAnd,
    BitOr,
    BitXor,
    Not,
    BitNot,
    And,
    Or,
    Question,
    Colon,
    Assign,
    PlusAssign,
    MinusAssign,
    TimesAssign,
    SlashAssign,
    PercentAssign,
    ShiftLeftAssign,
    ShiftRightAssign,
    ShiftRightUnsignedAssign,
    BitAndAssign,
    BitOrAssign,
    BitXorAssign,
}

/// Every mark, the longer ones first.
const MARKS: [Mark; 48] = [
    Mark::ShiftRightUnsignedAssign,
    Mark::StrictEqual,
    Mark::StrictNotEqual,
    Mark::ShiftRightUnsigned,
    Mark::ShiftLeftAssign,
    Mark::ShiftRightAssign,
    Mark::LessEqual,
    Mark::GreaterEqual,
    Mark::Equal,
    Mark::NotEqual,
    Mark::PlusPlus,
    Mark::MinusMinus,
    Mark::ShiftLeft,
    Mark::ShiftRight,
    Mark::And,
    Mark::Or,
    Mark::PlusAssign,
    Mark::MinusAssign,
    Mark::TimesAssign,
    Mark::SlashAssign,
    Mark::PercentAssign,
    Mark::BitAndAssign,
    Mark::BitOrAssign,
    Mark::BitXorAssign,
    Mark::OpenBrace,
    Mark::CloseBrace,
    Mark::OpenParenthesis,
    Mark::CloseParenthesis,
    Mark::OpenBracket,
    Mark::CloseBracket,
    Mark::Dot,
    Mark::Semicolon,
    Mark::Comma,
    Mark::Less,
    Mark::Greater,
    Mark::Plus,
    Mark::Minus,
    Mark::Times,
    Mark::Slash,
    Mark::Percent,
    Mark::BitAnd,
    Mark::BitOr,
    Mark::BitXor,
    Mark::Not,
    Mark::BitNot,
    Mark::Question,
    Mark::Colon,
    Mark::Assign,
];

impl Mark {
    /// How the mark is written.
    pub fn spelling(self) -> &'static str
        ensures { result.now ≡ spec.spelling self }
    {
        match self {
            Mark::OpenBrace => "{",
            Mark::CloseBrace => "}",
            Mark::OpenParenthesis => "(",
            Mark::CloseParenthesis => ")",
            Mark::OpenBracket => "[",
            Mark::CloseBracket => "]",
            Mark::Dot => ".",
            Mark::Semicolon => ";",
            Mark::Comma => ",",
            Mark::Less => "<",
            Mark::Greater => ">",
            Mark::LessEqual => "<=",
            Mark::GreaterEqual => ">=",
            Mark::Equal => "==",
            Mark::NotEqual => "!=",
            Mark::StrictEqual => "===",
            Mark::StrictNotEqual => "!==",
            Mark::Plus => "+",
            Mark::Minus => "-",
            Mark::Times => "*",
            Mark::Slash => "/",
            Mark::Percent => "%",
            Mark::PlusPlus => "++",
            Mark::MinusMinus => "--",
            Mark::ShiftLeft => "<<",
            Mark::ShiftRight => ">>",
            Mark::ShiftRightUnsigned => ">>>",
            Mark::BitAnd => "&",
            Mark::BitOr => "|",
            Mark::BitXor => "^",
            Mark::Not => "!",
            Mark::BitNot => "~",
            Mark::And => "&&",
            Mark::Or => "||",
            Mark::Question => "?",
            Mark::Colon => ":",
            Mark::Assign => "=",
            Mark::PlusAssign => "+=",
            Mark::MinusAssign => "-=",
            Mark::TimesAssign => "*=",
            Mark::SlashAssign => "/=",
            Mark::PercentAssign => "%=",
            Mark::ShiftLeftAssign => "<<=",
            Mark::ShiftRightAssign => ">>=",
            Mark::ShiftRightUnsignedAssign => ">>>=",
            Mark::BitAndAssign => "&=",
            Mark::BitOrAssign => "|=",
            Mark::BitXorAssign => "^=",
        }
    }
}

fn find_mark(marks: &[Mark], text: &[char]) -> Option<Mark>
    ensures { result ≡ find (λ mark. begins (spec.spelling mark) text.now) marks.now }
{
    for mark in marks {
        if begins(mark.spelling(), text) {
            return Some(*mark);
        }
    }
    None
}

/// The longest mark that the text begins with.
pub fn front_mark(text: &[char]) -> Option<Mark>
    ensures { result ≡ spec.front_mark text.now }
{
    find_mark(&MARKS, text)
}
