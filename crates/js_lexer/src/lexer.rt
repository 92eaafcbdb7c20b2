ghost use Rattle.std.specs.Prelude.{◌≡◌, ◌-◌, ◌<◌, ◌^◌, false, length, IfOk, IfErr, encode_utf8_all};
ghost use Rattle.std.specs.Str.{chars};
ghost use Rattle.js_lexer.specs.Position.{IsBounded, at_start, passed, tokens_at};
ghost use Rattle.js_lexer.specs.Tokens as spec;

use crate::front::{Front, read_front};
use crate::position::Position;
use crate::reading::Reading;
use crate::token::{LexError, Token, TokenKind};
use std::alloc::{AllocError, Global};

fn characters(alloc: Global, text: &str) -> Result<Vec<char>, AllocError>
    ensures { IfOk result (λ v. v.items ≡ chars text.now) }
{
    text.chars().collect(alloc)
}

/// The text behind one byte order mark, if it begins with one.
fn body(text: &[char]) -> &[char]
    ensures { result.now ≡ spec.body text.now }
{
    match text {
        ['\u{feff}', rest @ ..] => rest,
        _ => text,
    }
}

/// Where the text begins.
fn body_position(text: &[char]) -> Position
    ensures value { result ≡ at_start (spec.body_start text.now) }
    ensures bounded { IsBounded result }
{
    let bytes = match text {
        ['\u{feff}', ..] => 3,
        _ => 0,
    };
    Position::start(bytes)
}

/// The tokens of these characters.
fn tokens_of(alloc: Global, text: &[char]) -> Result<Vec<Token>, LexError>
    requires { length (encode_utf8_all text.now) < 2 ^ 32 - 1 }
    ensures ok { IfOk result (λ tokens. spec.IsTokens text.now tokens.items) }
    ensures err { IfErr result (spec.IsErrorOf text.now) }
{
    let mut reading = Reading {
        tokens: Vec::new(alloc),
        position: body_position(text),
        newline: false,
    };
    let mut rest = body(text);
    while let Some(front) = read_front(alloc, rest)? {
        match front {
            Front::Next(length, kind) => {
                let (characters, more) = rest.split_at(length);
                reading.take(characters, kind)?;
                rest = more;
            }
            Front::Bad(kind, offset) => {
                let (before, _) = rest.split_at(offset);
                return Err(LexError::Lexical(reading.position.passed(before).place, kind));
            }
        }
    }
    reading.take(rest, Some(TokenKind::End))?;
    Ok(reading.tokens)
}

/// The tokens of a text, closed by `End`, or its first fault from the left (ES3 section 7).
pub fn lex(alloc: Global, text: &str) -> Result<Vec<Token>, LexError>
    requires { length text.now < 2 ^ 32 - 1 }
    ensures ok { IfOk result (λ tokens. spec.IsTokens (chars text.now) tokens.items) }
    ensures err { IfErr result (spec.IsErrorOf (chars text.now)) }
{
    let characters = characters(alloc, text)?;
    tokens_of(alloc, &characters)
}
