//! What may be linked to an operand.

ghost use Rattle.std.specs.Prelude.{◌≡◌, ◌<◌, length, IfSome};
ghost use Rattle.js_parser.specs.Pieces as spec;

use crate::tokens::Tokens;
use js_lexer::{Mark, TokenKind};

/// What is linked to the operand before it (ES3 11.2).
#[derive(Clone, Copy)]
pub enum Link {
    /// A name behind a dot.
    Dot,
    /// A property in brackets.
    Index,
    /// The arguments of a call.
    Call,
}

/// The link that a token begins, if it begins one.
fn link_of(with_calls: bool, kind: &TokenKind) -> Option<Link>
    ensures { result ≡ spec.link_of with_calls kind.now }
{
    match kind {
        TokenKind::Mark(Mark::Dot) => Some(Link::Dot),
        TokenKind::Mark(Mark::OpenBracket) => Some(Link::Index),
        TokenKind::Mark(Mark::OpenParenthesis) => {
            if with_calls { Some(Link::Call) } else { None }
        }
        _ => None,
    }
}

/// The link that the next token begins, if it begins one.
pub fn link_at(tokens: &Tokens<'_>, with_calls: bool) -> Option<Link>
    ensures is { result ≡ spec.first_as (spec.link_of with_calls) tokens.now }
    ensures some { IfSome result (λ _. 0 < length tokens.now) }
{
    match tokens.front() {
        Some(token) => link_of(with_calls, &token.kind),
        None => None,
    }
}
