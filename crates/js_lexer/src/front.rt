ghost use Rattle.std.specs.Prelude.{◌≡◌, ◌≤◌, [], ◌∷◌, length, IfOk, IfSome, IsTrue, MatchOption};
ghost use Rattle.js_lexer.specs.Fronts as spec;

use crate::characters::{
    begins_name, begins_with_digit, is_digit, is_line_terminator, is_white_space, line_length,
    name_length,
};
use crate::mark::front_mark;
use crate::number::number;
use crate::string::string;
use crate::token::{LexKind, TokenKind};
use crate::units::units_of_characters;
use crate::word::word_of;
use dl_text::Units;
use std::alloc::{AllocError, Global};

/// What stands at a place of a text.
#[derive(Debug, Drop)]
pub enum Front {
    /// A piece of so many characters, and what token it is. White space, line terminators and
    /// comments are none.
    Next(usize, Option<TokenKind>),
    /// A fault, and how many characters stand before its place.
    Bad(LexKind, usize),
}

fn closes_comment(text: &[char]) -> bool
    ensures value { result ≡ spec.closes_comment text.now }
    ensures within { IsTrue result → 2 ≤ length text.now }
{
    matches!(text, ['*', '/', ..])
}

/// How many characters there are up to the first `*/` and with it.
#[tactic(auto, using(crate::proofs::Comments::comment_end_more, crate::proofs::Comments::comment_end_none))]
fn comment_end(text: &[char]) -> Option<usize>
    ensures value { result ≡ spec.comment_end text.now }
    ensures within { IfSome result (λ n. n ≤ length text.now) }
{
    for i in 0..text.len() {
        if closes_comment(&text[i..]) {
            return Some(i + 2);
        }
    }
    None
}

fn line_comment(text: &[char]) -> Front
    ensures { result ≡ spec.line_comment text.now }
{
    Front::Next(2 + line_length(text), None)
}

fn long_comment(text: &[char]) -> Front
    ensures { result ≡ spec.long_comment (spec.comment_end text.now) }
{
    match comment_end(text) {
        Some(length) => Front::Next(2 + length, None),
        None => Front::Bad(LexKind::OpenComment, 0),
    }
}

fn name_kind(units: Units) -> TokenKind
    ensures { result ≡ spec.name_kind units }
{
    match word_of(units.items()) {
        Some(word) => TokenKind::Word(word),
        None => TokenKind::Name(units),
    }
}

fn name(alloc: Global, text: &[char]) -> Result<Front, AllocError>
    ensures { IfOk result (λ front. front ≡ spec.name text.now) }
{
    let length = name_length(text);
    let (name, _) = text.split_at(length);
    let units = units_of_characters(alloc, name)?;
    Ok(Front::Next(length, Some(name_kind(units))))
}

fn mark(text: &[char]) -> Front
    ensures { result ≡ spec.mark text.now }
{
    match front_mark(text) {
        Some(mark) => Front::Next(mark.spelling().len(), Some(TokenKind::Mark(mark))),
        None => Front::Bad(LexKind::BadCharacter, 0),
    }
}

fn is_blank(c: char) -> bool
    ensures { result ≡ spec.is_blank c }
{
    is_white_space(c) || is_line_terminator(c)
}

fn is_quote(c: char) -> bool
    ensures { result ≡ spec.is_quote c }
{
    c == '"' || c == '\''
}

/// What stands at the front of a text that begins with a slash before this rest.
fn slash(text: &[char], rest: &[char]) -> Front
    ensures { result ≡ spec.slash text.now rest.now }
{
    match rest {
        ['/', comment @ ..] => line_comment(comment),
        ['*', comment @ ..] => long_comment(comment),
        _ => mark(text),
    }
}

/// What stands at the front of a text that begins with no quote, but with this character before
/// this rest.
fn front_by(alloc: Global, text: &[char], c: char, rest: &[char]) -> Result<Front, AllocError>
    requires { text.now ≡ c ∷ rest.now }
    ensures { IfOk result (λ front. front ≡ spec.front_by c rest.now) }
{
    if is_blank(c) {
        Ok(Front::Next(1, None))
    } else if c == '/' {
        Ok(slash(text, rest))
    } else if begins_name(c) {
        name(alloc, text)
    } else if is_digit(c) {
        Ok(number(text))
    } else if c == '.' && begins_with_digit(rest) {
        Ok(Front::Bad(LexKind::Fraction, 0))
    } else if c == '\\' {
        Ok(Front::Bad(LexKind::NameEscape, 0))
    } else {
        Ok(mark(text))
    }
}

fn front_at(alloc: Global, text: &[char], c: char, rest: &[char]) -> Result<Front, AllocError>
    requires { text.now ≡ c ∷ rest.now }
    ensures { IfOk result (spec.StandsAt text.now) }
{
    if is_quote(c) {
        string(alloc, c, rest)
    } else {
        front_by(alloc, text, c, rest)
    }
}

/// What stands at the front of a text: nothing, where the text is empty.
pub fn read_front(alloc: Global, text: &[char]) -> Result<Option<Front>, AllocError>
    ensures { IfOk result (λ front. MatchOption front (text.now ≡ []) (spec.StandsAt text.now)) }
{
    match text {
        [] => Ok(None),
        [c, rest @ ..] => Ok(Some(front_at(alloc, text, *c, rest)?)),
    }
}
