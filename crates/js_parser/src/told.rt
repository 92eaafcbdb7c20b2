//! What is told of a token with which no script goes on.

ghost use Rattle.std.specs.Prelude.{◌≡◌, Some};
ghost use Rattle.js_parser.specs.Accepted as accepted;
ghost use Rattle.js_parser.specs.Fault as spec;
ghost use Rattle.js_parser.specs.Symbols.{symbols};
ghost use Rattle.js_parser.specs.View as view;

use crate::error::ParseError;
use crate::form::Construct;
use crate::names::{is_eval, is_own, is_same, is_written_so};
use dl_text::Units;
use js_lexer::{Mark, Token, TokenKind, Word};

/// Whether the token is this name.
fn names_it(name: &Units, kind: &TokenKind) -> bool
    ensures { result ≡ spec.names_it name.now kind.now }
{
    match kind {
        TokenKind::Name(other) => is_same(name, other),
        _ => false,
    }
}

/// Whether the token may stand in a list of formals.
fn lists_names(kind: &TokenKind) -> bool
    ensures { result ≡ spec.lists_names kind.now }
{
    matches!(kind, TokenKind::Name(_) | TokenKind::Mark(Mark::Comma))
}

/// Whether the name is one of these tokens.
fn is_formal_among(name: &Units, tokens: &[Token]) -> bool
    ensures { result ≡ spec.is_formal_among name.now (symbols tokens.now) }
{
    for token in tokens {
        if names_it(name, &token.kind) {
            return true;
        }
    }
    false
}

/// Whether all of these may stand in a list of formals.
fn all_list_names(tokens: &[Token]) -> bool
    ensures { result ≡ spec.all_list_names (symbols tokens.now) }
{
    for token in tokens {
        if !lists_names(&token.kind) {
            return false;
        }
    }
    true
}

/// Whether the token is `(`, and the name is one of the formals behind it, which nothing closes.
fn opens_formals(name: &Units, kind: &TokenKind, behind: &[Token]) -> bool
    ensures { result ≡ spec.opens_formals name.now kind.now (symbols behind.now) }
{
    match kind {
        TokenKind::Mark(Mark::OpenParenthesis) => {
            all_list_names(behind) && is_formal_among(name, behind)
        }
        _ => false,
    }
}

/// The same where the token may be the name of the function.
fn heads_formals(name: &Units, kind: &TokenKind, behind: &[Token]) -> bool
    ensures { result ≡ spec.heads_formals name.now kind.now (symbols behind.now) }
{
    match kind {
        TokenKind::Name(_) => match behind {
            [next, rest @ ..] => opens_formals(name, &next.kind, rest),
            [] => false,
        },
        _ => opens_formals(name, kind, behind),
    }
}

/// The same of the tokens behind the word `function`.
fn behind_function(name: &Units, tokens: &[Token]) -> bool
    ensures { result ≡ spec.behind_function name.now (symbols tokens.now) }
{
    match tokens {
        [first, rest @ ..] => heads_formals(name, &first.kind, rest),
        [] => false,
    }
}

/// The same where the token is the word `function`.
fn begins_function(name: &Units, kind: &TokenKind, behind: &[Token]) -> bool
    ensures { result ≡ spec.begins_function name.now kind.now (symbols behind.now) }
{
    match kind {
        TokenKind::Word(Word::Function) => behind_function(name, behind),
        _ => false,
    }
}

/// Whether the name is an earlier formal of the list that the tokens end in.
fn is_earlier_formal(name: &Units, used: &[Token]) -> bool
    ensures { result ≡ spec.is_earlier_formal name.now (symbols used.now) }
{
    let mut rest = used;
    'tokens: while let [first, behind @ ..] = rest {
        if begins_function(name, &first.kind, behind) {
            return true;
        }
        rest = behind;
    }
    false
}

/// What a name is refused as.
fn name_construct(used: &[Token], name: &Units) -> Option<Construct>
    ensures { result ≡ spec.name_construct (symbols used.now) name.now }
{
    if is_own(name) {
        Some(Construct::DlName)
    } else if is_eval(name) {
        Some(Construct::Eval)
    } else if is_written_so("Function", name) {
        Some(Construct::FunctionName)
    } else if is_written_so("Infinity", name) {
        Some(Construct::InfinityName)
    } else if is_written_so("arguments", name) {
        Some(Construct::Arguments)
    } else if is_written_so("callee", name) {
        Some(Construct::Callee)
    } else if is_written_so("caller", name) {
        Some(Construct::Caller)
    } else if is_earlier_formal(name, used) {
        Some(Construct::RepeatedFormal)
    } else {
        None
    }
}

/// What the token is refused as, behind those used.
pub fn construct(used: &[Token], kind: &TokenKind) -> Option<Construct>
    ensures { result ≡ spec.construct (symbols used.now) kind.now }
{
    match kind {
        TokenKind::Word(Word::With) => Some(Construct::With),
        TokenKind::Word(Word::Debugger) => Some(Construct::Debugger),
        TokenKind::Word(Word::Function) => Some(Construct::FunctionPlace),
        TokenKind::Mark(Mark::Slash) => Some(Construct::RegExp),
        TokenKind::Mark(Mark::SlashAssign) => Some(Construct::RegExp),
        TokenKind::Str(text) => {
            if is_own(text) {
                Some(Construct::DlName)
            } else {
                None
            }
        }
        TokenKind::Name(name) => name_construct(used, name),
        _ => None,
    }
}

/// How many functions there are, each of which has its word `function`.
fn functions_in(tokens: &[Token]) -> usize
    ensures { result ≡ accepted.functions_in (symbols tokens.now) }
{
    let mut count = 0;
    for token in tokens {
        if matches!(token.kind, TokenKind::Word(Word::Function)) {
            count += 1;
        }
    }
    count
}

/// Whether the token is the word `function`, where there are as many functions as allowed already.
fn is_too_many(functions: u32, used: &[Token], kind: &TokenKind) -> bool
    ensures { result ≡ spec.is_too_many functions (symbols used.now) kind.now }
{
    match kind {
        TokenKind::Word(Word::Function) => functions as usize <= functions_in(used),
        _ => false,
    }
}

/// What is told of the first token with which no script goes on, behind those used.
pub fn answer(functions: u32, used: &[Token], token: &Token) -> ParseError
    ensures { view.told result ≡ Some (spec.answer functions (symbols used.now) token.now) }
{
    if is_too_many(functions, used, &token.kind) {
        return ParseError::TooMany(token.place);
    }
    match construct(used, &token.kind) {
        Some(construct) => ParseError::Construct(token.place, construct),
        None => ParseError::Syntax(token.place),
    }
}
