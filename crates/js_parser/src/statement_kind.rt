//! Which statement begins with a token.

ghost use Rattle.std.specs.Prelude.{◌≡◌};
ghost use Rattle.js_lexer.specs.declared.token.TokenKind.TheVariants as token;
ghost use Rattle.js_parser.specs.StatementKinds as kinds;

use crate::tokens::Tokens;
use js_lexer::{Mark, TokenKind, Word};

/// The kinds of statements (ES3 section 12), by their first token.
#[derive(Clone, Copy)]
pub enum Kind {
    Continue,
    Break,
    Return,
    /// A labelled statement, or an expression that begins with a name.
    Named,
    Expression,
    /// No statement: `function`, or no token at all.
    Refused,
    /// A statement that is read behind its first token.
    Behind(Behind),
}

/// The statements that are read behind their first token, by this token.
#[derive(Clone, Copy)]
pub enum Behind {
    Block,
    Empty,
    Variables,
    If,
    Do,
    While,
    For,
    Switch,
    Throw,
    Try,
}

/// The kind of the statement that begins with this token.
fn kind_of(kind: &TokenKind) -> Kind
    ensures { result ≡ kinds.kind_of kind.now }
{
    match kind {
        TokenKind::Mark(Mark::OpenBrace) => Kind::Behind(Behind::Block),
        TokenKind::Mark(Mark::Semicolon) => Kind::Behind(Behind::Empty),
        TokenKind::Word(word) => kind_of_word(*word),
        TokenKind::Name(_) => Kind::Named,
        _ => Kind::Expression,
    }
}

/// The kind of the statement that begins with this word.
fn kind_of_word(word: Word) -> Kind
    ensures { result ≡ kinds.kind_of (token.Word word) }
{
    match word {
        Word::Var => Kind::Behind(Behind::Variables),
        Word::If => Kind::Behind(Behind::If),
        Word::Do => Kind::Behind(Behind::Do),
        Word::While => Kind::Behind(Behind::While),
        Word::For => Kind::Behind(Behind::For),
        Word::Continue => Kind::Continue,
        Word::Break => Kind::Break,
        Word::Return => Kind::Return,
        Word::Switch => Kind::Behind(Behind::Switch),
        Word::Throw => Kind::Behind(Behind::Throw),
        Word::Try => Kind::Behind(Behind::Try),
        Word::Function => Kind::Refused,
        _ => Kind::Expression,
    }
}

/// The kind of the statement that begins with these tokens.
pub fn kind_at(tokens: &Tokens<'_>) -> Kind
    ensures { result ≡ kinds.kind_at tokens.now }
{
    match tokens.front() {
        Some(token) => kind_of(&token.kind),
        None => Kind::Refused,
    }
}
