//! What the first token of an operand opens.

ghost use Rattle.std.specs.Prelude.{◌≡◌, ◌<◌, length, IfSome};
ghost use Rattle.js_parser.specs.Pieces as spec;

use crate::tokens::Tokens;
use js_lexer::{Mark, TokenKind, Word};

/// What stands behind the first token of an operand (ES3 11.1).
#[derive(Clone, Copy)]
pub enum Opening {
    /// A function, behind its word.
    Function,
    /// The elements of an array literal.
    Array,
    /// The keys and values of an object literal.
    Object,
    /// An expression in parentheses.
    Parentheses,
}

/// What a token opens, if it opens an operand.
fn opening_of(kind: &TokenKind) -> Option<Opening>
    ensures { result ≡ spec.opening_of kind.now }
{
    match kind {
        TokenKind::Word(Word::Function) => Some(Opening::Function),
        TokenKind::Mark(Mark::OpenBracket) => Some(Opening::Array),
        TokenKind::Mark(Mark::OpenBrace) => Some(Opening::Object),
        TokenKind::Mark(Mark::OpenParenthesis) => Some(Opening::Parentheses),
        _ => None,
    }
}

/// What the next token opens, if it opens an operand.
pub fn opening_at(tokens: &Tokens<'_>) -> Option<Opening>
    ensures is { result ≡ spec.first_as spec.opening_of tokens.now }
    ensures some { IfSome result (λ _. 0 < length tokens.now) }
{
    match tokens.front() {
        Some(token) => opening_of(&token.kind),
        None => None,
    }
}
