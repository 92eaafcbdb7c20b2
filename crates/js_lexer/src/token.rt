ghost use Rattle.std.specs.Prelude.{◌≡◌};
ghost use Rattle.js_lexer.specs.declared.token.LexError.TheVariants.{OutOfMemory};

use crate::mark::Mark;
use crate::word::Word;
use dl_text::{Place, Units};
use std::alloc::{AllocError, AllocFailed};
use std::error::Error;
use std::fmt;

/// What a token is.
#[derive(Debug, Drop)]
pub enum TokenKind {
    Word(Word),
    /// A name that is no word.
    Name(Units),
    /// A whole number of at most 53 bits.
    Number(u64),
    /// A string, as what it stands for.
    Str(Units),
    Mark(Mark),
    /// What closes the tokens of a text.
    End,
}

/// A token of a text: what it is, where it stands in bytes, the place of its first character, and
/// whether a line terminator stands between the token before and it.
#[derive(Debug, Drop)]
pub struct Token {
    pub kind: TokenKind,
    pub start: usize,
    pub end: usize,
    pub place: Place,
    pub newline: bool,
}

/// What is wrong with a text that has no tokens.
#[derive(Clone, Copy, Debug, PartialEq, Eq)]
pub enum LexKind {
    /// `0` directly before a digit.
    Octal,
    /// Decimal digits directly before `.`, or `.` directly before a digit where no number is being
    /// read.
    Fraction,
    /// Decimal digits directly before `e` or `E`.
    Exponent,
    /// A number directly before what begins a name or a backslash.
    NumberTail,
    /// A number above 2^53 - 1.
    WideNumber,
    /// A string that meets a line terminator or the end of the text.
    OpenString,
    /// A backslash in a string that begins no escape.
    BadEscape,
    /// `/*` without `*/`.
    OpenComment,
    /// A backslash outside strings and comments.
    NameEscape,
    /// Any other character that begins no token.
    BadCharacter,
}

/// Why a text gave no tokens.
#[derive(Clone, Copy, Debug, PartialEq, Eq)]
pub enum LexError {
    /// The first fault of the text from the left.
    Lexical(Place, LexKind),
    OutOfMemory,
}

impl fmt::Display for LexKind {
    ghost use Rattle.std.specs.Prelude.{Some};
    ghost use Rattle.js_lexer.specs.FaultTexts.{kind_text};

    ghost output = { λ kind. Some (kind_text kind) };

    fn fmt<W: fmt::Write>(&self, f: &mut fmt::Formatter<W>) -> fmt::Result {
        f.write_str(match self {
            LexKind::Octal => "Octal",
            LexKind::Fraction => "Fraction",
            LexKind::Exponent => "Exponent",
            LexKind::NumberTail => "NumberTail",
            LexKind::WideNumber => "WideNumber",
            LexKind::OpenString => "OpenString",
            LexKind::BadEscape => "BadEscape",
            LexKind::OpenComment => "OpenComment",
            LexKind::NameEscape => "NameEscape",
            LexKind::BadCharacter => "BadCharacter",
        })
    }
}

impl fmt::Display for LexError {
    ghost use Rattle.std.specs.Prelude.{Some};
    ghost use Rattle.js_lexer.specs.FaultTexts.{text_of};

    ghost output = { λ error. Some (text_of error) };

    fn fmt<W: fmt::Write>(&self, f: &mut fmt::Formatter<W>) -> fmt::Result {
        match self {
            LexError::Lexical(place, kind) => {
                let line = place.line;
                let column = place.column;
                write!(f, "{kind} at {line}:{column}")
            }
            LexError::OutOfMemory => f.write_str("out of memory"),
        }
    }
}

impl Error for LexError {}

impl From<AllocError> for LexError {
    ghost from_gives = { λ _ error. error ≡ OutOfMemory };

    fn from(_error: AllocError) -> LexError {
        LexError::OutOfMemory
    }
}

impl<T: Drop> From<AllocFailed<T>> for LexError {
    ghost from_gives = { λ _ error. error ≡ OutOfMemory };

    fn from(_error: AllocFailed<T>) -> LexError {
        LexError::OutOfMemory
    }
}
