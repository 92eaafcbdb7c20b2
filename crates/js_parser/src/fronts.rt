//! What the next token is, where lists begin, go on or end.

ghost use Rattle.std.specs.Prelude.{◌≡◌, ◌<◌, length, IsTrue};
ghost use Rattle.std.specs.Option.{option_copied};
ghost use Rattle.js_parser.specs.Pieces.{first_as};
ghost use Rattle.js_parser.specs.Reads.{at};
ghost use Rattle.js_parser.specs.StatementPieces as pieces;

use crate::tokens::Tokens;
use dl_text::Units;
use js_lexer::{Mark, TokenKind, Word};

impl<'t> Tokens<'t> {
    /// The name that the next token is.
    pub fn name(&self) -> Option<&'t Units>
        ensures { option_copied result ≡ first_as pieces.name_of self.now }
    {
        match self.front() {
            Some(token) => match &token.kind {
                TokenKind::Name(name) => Some(name),
                _ => None,
            },
            None => None,
        }
    }

    /// Whether a token is left.
    pub fn at_any(&self) -> bool
        ensures is { result ≡ at pieces.is_any self.now }
        ensures some { IsTrue result → 0 < length self.now }
    {
        self.front().is_some()
    }

    /// Whether the next token is a name.
    pub fn at_name(&self) -> bool
        ensures is { result ≡ at pieces.is_name self.now }
        ensures some { IsTrue result → 0 < length self.now }
    {
        match self.front() {
            Some(token) => matches!(token.kind, TokenKind::Name(_)),
            None => false,
        }
    }

    /// Whether the next token is `function`.
    pub fn at_function(&self) -> bool
        ensures is { result ≡ at pieces.is_function self.now }
        ensures some { IsTrue result → 0 < length self.now }
    {
        match self.front() {
            Some(token) => matches!(token.kind, TokenKind::Word(Word::Function)),
            None => false,
        }
    }

    /// Whether the next token is `case`.
    pub fn at_case(&self) -> bool
        ensures is { result ≡ at pieces.is_case self.now }
        ensures some { IsTrue result → 0 < length self.now }
    {
        match self.front() {
            Some(token) => matches!(token.kind, TokenKind::Word(Word::Case)),
            None => false,
        }
    }

    /// Whether a clause of a `switch` comes next (ES3 12.11).
    pub fn begins_clause(&self) -> bool
        ensures is { result ≡ at pieces.begins_clause self.now }
        ensures some { IsTrue result → 0 < length self.now }
    {
        match self.front() {
            Some(token) => matches!(token.kind, TokenKind::Word(Word::Case | Word::Default)),
            None => false,
        }
    }

    /// Whether an expression that may be absent is absent (ES3 12.6.3).
    pub fn ends_optional(&self) -> bool
        ensures is { result ≡ at pieces.ends_optional self.now }
        ensures some { IsTrue result → 0 < length self.now }
    {
        match self.front() {
            Some(token) => {
                matches!(
                    token.kind,
                    TokenKind::Mark(Mark::Semicolon | Mark::CloseParenthesis)
                )
            }
            None => false,
        }
    }

    /// Whether one more statement comes in a block or a clause (ES3 12.1).
    pub fn goes_on_list(&self) -> bool
        ensures is { result ≡ at pieces.goes_on_list self.now }
        ensures some { IsTrue result → 0 < length self.now }
    {
        match self.front() {
            Some(token) => !matches!(
                token.kind,
                TokenKind::Mark(Mark::CloseBrace)
                    | TokenKind::End
                    | TokenKind::Word(Word::Case | Word::Default)
            ),
            None => false,
        }
    }

    /// Whether one more source element comes (ES3 section 14).
    pub fn goes_on_elements(&self) -> bool
        ensures is { result ≡ at pieces.goes_on_elements self.now }
        ensures some { IsTrue result → 0 < length self.now }
    {
        match self.front() {
            Some(token) => {
                !matches!(
                    token.kind,
                    TokenKind::Mark(Mark::CloseBrace) | TokenKind::End
                )
            }
            None => false,
        }
    }
}
