//! Late functions: `eval($dl_get(k))`, in the form Written.

ghost use Rattle.std.specs.Prelude.{◌≡◌, ◌≤◌, ◌<◌, length};
ghost use Rattle.std.specs.Fmt.{decimal};
ghost use Rattle.js_parser.specs.declared.form.Form.{Form as TheForm};
ghost use Rattle.js_parser.specs.Pieces as pieces;
ghost use Rattle.js_parser.specs.Reads.{Reads};
ghost use Rattle.js_parser.specs.Symbols.{symbol};
ghost use Rattle.js_parser.specs.View as view;
ghost use Rattle.js_tree.specs.Plain.{expr};

use crate::form::Form;
use crate::nodes;
use crate::rooms::Room;
use crate::stop::Stop;
use crate::tokens::Tokens;
use js_lexer::{Token, TokenKind};
use js_tree::{Boxed, Expr, LAST_FUNCTION_NUMBER};
use std::alloc::Global;

/// A late function, whose `eval` is the next token.
pub fn late_in(
    alloc: Global,
    tokens: &mut Tokens<'_>,
    form: Form,
    room: Room,
) -> Result<Boxed<Expr>, Stop>
    ensures reads { (any : TheForm)
        → Reads any expr (pieces.late_in form (view.room room)) result tokens.old tokens.new }
    ensures shorter { length tokens.new ≤ length tokens.old }
{
    match form {
        Form::Source => Err(Stop::Broken),
        Form::Written => {
            tokens.take();
            late(alloc, tokens, room)
        }
    }
}

/// A late function behind its `eval`.
fn late(alloc: Global, tokens: &mut Tokens<'_>, room: Room) -> Result<Boxed<Expr>, Stop>
    ensures reads { (any : TheForm)
        → Reads any expr (pieces.late (view.room room)) result tokens.old tokens.new }
    ensures shorter { length tokens.new ≤ length tokens.old }
{
    if !room.fits_node() {
        return Err(Stop::Deep);
    }
    tokens.open_parenthesis()?;
    tokens.get_name()?;
    tokens.open_parenthesis()?;
    let entry = late_number(tokens)?;
    tokens.close_parenthesis()?;
    tokens.close_parenthesis()?;
    nodes::late(alloc, entry)
}

/// The number of a late function's entry.
fn late_number(tokens: &mut Tokens<'_>) -> Result<u32, Stop>
    ensures reads { (any : TheForm)
        → Reads any (λ n. n) pieces.late_number result tokens.old tokens.new }
    ensures shorter { length tokens.new ≤ length tokens.old }
{
    let Some(token) = tokens.front() else {
        return Err(Stop::Broken);
    };
    let Some(entry) = entry_of(token) else {
        return Err(Stop::Broken);
    };
    tokens.take();
    Ok(entry)
}

/// The number of a function that a token is in decimal, if it is one.
fn entry_of(token: &Token) -> Option<u32>
    ensures { result ≡ pieces.entry_of (symbol token.now).kind (symbol token.now).in_decimal }
{
    match token.kind {
        TokenKind::Number(number) => { entry_number(number, token.end.saturating_sub(token.start)) }
        _ => None,
    }
}

/// The number of a function that is written in so many characters, if these are its decimal.
fn entry_number(number: u64, characters: usize) -> Option<u32>
    ensures { result ≡ pieces.entry_number number characters }
{
    if number < 1 || number > u64::from(LAST_FUNCTION_NUMBER) {
        return None;
    }
    if characters != digit_count(number) {
        return None;
    }
    Some(number as u32)
}

/// How many digits the number of a function has in decimal.
fn digit_count(number: u64) -> usize
    requires { number < 65_536 }
    ensures { result ≡ length (decimal number) }
{
    if number < 10 {
        1
    } else if number < 100 {
        2
    } else if number < 1000 {
        3
    } else if number < 10_000 {
        4
    } else {
        5
    }
}
