//! The tree of a script from its tokens, or the fault that they have.

ghost use Rattle.std.specs.Prelude.{◌≡◌, ◌≤◌, ◌<◌, ◌+◌, ◌∷◌, ◌++◌, Err, IfErr, IfOk, List, Some, length, take};
ghost use Rattle.js_lexer.specs.declared.token.Token.{Token};
ghost use Rattle.js_parser.specs.Accepted.{Accepted, functions_in, most_open};
ghost use Rattle.js_parser.specs.Fault as fault;
ghost use Rattle.js_parser.specs.Parses.{IsClosed, IsTree, Parses};
ghost use Rattle.js_parser.specs.Scanned.{IsRead, Scanned};
ghost use Rattle.js_parser.specs.Symbols.{symbols};
ghost use Rattle.js_parser.specs.View.{told};
ghost use Rattle.js_parser.specs.declared.error.ParseError.TheVariants.{TooDeep};
ghost use Rattle.js_tree.specs.Tree as tree;

use crate::cuts::{first_bracket_over, first_function_over};
use crate::error::ParseError;
use crate::form::{Form, Limits};
use crate::scan::{Halt, scan};
use crate::told::answer;
use js_lexer::Token;
use js_tree::{Script, Stmts};
use std::alloc::Global;

/// What is told of the token behind so many, with which no script goes on.
fn answer_at(functions: u32, tokens: &[Token], at: usize) -> ParseError
    requires { at < length tokens.now }
    ensures { (before rest : List Token) (token : Token) → tokens.now ≡ before ++ (token ∷ rest)
        → length before ≡ at
        → told result ≡ Some (fault.answer functions (symbols before) token) }
{
    answer(functions, &tokens[..at], &tokens[at])
}

/// That a limit breaks in the statement that begins behind so many tokens.
fn too_deep_at(tokens: &[Token], begun: usize) -> ParseError
    requires { begun < length tokens.now }
    ensures { (before rest : List Token) (token : Token) → tokens.now ≡ before ++ (token ∷ rest)
        → length before ≡ begun → result ≡ TooDeep token.place }
{
    ParseError::TooDeep(tokens[begun].place)
}

/// Reads a front of the tokens, and tells where reading halts.
fn read_front(alloc: Global, form: Form, limits: &Limits, front: &[Token]) -> Result<(), Halt>
    ensures ok { IfOk result (λ _. IsRead form limits.now (symbols front.now)) }
    ensures err { IfErr result (λ halt. Scanned form limits.now (symbols front.now) (Err halt)) }
{
    match scan(alloc, form, limits, front) {
        Ok(body) => passed(body),
        Err(halt) => Err(halt),
    }
}

/// Lets go what was read.
fn passed(_body: Stmts) -> Result<(), Halt>
    ensures { IfErr result (λ _. ⊥) }
{
    Ok(())
}

/// Where neither brackets nor functions are too many.
fn parse_whole(
    alloc: Global,
    tokens: &[Token],
    limits: &Limits,
    form: Form,
) -> Result<Script, ParseError>
    requires closed { IsClosed tokens.now }
    requires few { functions_in (symbols tokens.now) ≤ limits.now.functions }
    requires shut { most_open 0 (symbols tokens.now) ≤ limits.now.brackets }
    ensures { Parses form limits.now tokens.now result }
{
    match scan(alloc, form, limits, tokens) {
        Ok(body) => Ok(Script { body }),
        Err(Halt::Broken(at)) => Err(answer_at(limits.functions, tokens, at)),
        Err(Halt::UsedUp(begun)) => Err(too_deep_at(tokens, begun)),
        Err(Halt::Deep(begun)) => Err(too_deep_at(tokens, begun)),
        Err(Halt::OutOfMemory) => Err(ParseError::OutOfMemory),
    }
}

/// Where one function is too many, which stands behind so many tokens.
fn parse_to_function(
    alloc: Global,
    tokens: &[Token],
    end: usize,
    limits: &Limits,
    form: Form,
) -> Result<Script, ParseError>
    requires closed { IsClosed tokens.now }
    requires within { end < length tokens.now }
    requires few { functions_in (symbols (take end tokens.now)) ≤ limits.now.functions }
    requires over { limits.now.functions < functions_in (symbols (take (end + 1) tokens.now)) }
    requires shut { most_open 0 (symbols (take end tokens.now)) ≤ limits.now.brackets }
    ensures { Parses form limits.now tokens.now result }
{
    match read_front(alloc, form, limits, &tokens[..end]) {
        Ok(()) => Err(answer_at(limits.functions, tokens, end)),
        Err(Halt::UsedUp(_)) => Err(answer_at(limits.functions, tokens, end)),
        Err(Halt::Broken(at)) => Err(answer_at(limits.functions, tokens, at)),
        Err(Halt::Deep(begun)) => Err(too_deep_at(tokens, begun)),
        Err(Halt::OutOfMemory) => Err(ParseError::OutOfMemory),
    }
}

/// Where one bracket is too many, which stands behind so many tokens.
fn parse_to_bracket(
    alloc: Global,
    tokens: &[Token],
    end: usize,
    limits: &Limits,
    form: Form,
) -> Result<Script, ParseError>
    requires closed { IsClosed tokens.now }
    requires within { end < length tokens.now }
    requires few { functions_in (symbols (take (end + 1) tokens.now)) ≤ limits.now.functions }
    requires shut { most_open 0 (symbols (take end tokens.now)) ≤ limits.now.brackets }
    requires over { limits.now.brackets < most_open 0 (symbols (take (end + 1) tokens.now)) }
    ensures { Parses form limits.now tokens.now result }
{
    match read_front(alloc, form, limits, &tokens[..end + 1]) {
        Ok(()) => unreachable!(),
        Err(Halt::Broken(at)) => Err(answer_at(limits.functions, tokens, at)),
        Err(Halt::UsedUp(begun)) => Err(too_deep_at(tokens, begun)),
        Err(Halt::Deep(begun)) => Err(too_deep_at(tokens, begun)),
        Err(Halt::OutOfMemory) => Err(ParseError::OutOfMemory),
    }
}

/// The tree of a script (ES3 section 14) within limits; or, where the tokens are no accepted
/// script, a fault that they have. Only the front is read that ends with the first bracket too
/// many or before the first function too many, so that the limits bound the recursion.
pub fn parse(
    alloc: Global,
    tokens: &[Token],
    limits: &Limits,
    form: Form,
) -> Result<Script, ParseError>
    requires closed { IsClosed tokens.now }
    ensures parses { Parses form limits.now tokens.now result }
    ensures exactly { (tree : tree.Script) → Accepted form limits.now (symbols tokens.now) tree
        → IsTree tree result }
{
    let functions = first_function_over(tokens, limits.functions);
    let brackets = first_bracket_over(tokens, limits.brackets);
    if brackets < functions {
        return parse_to_bracket(alloc, tokens, brackets, limits, form);
    }
    if functions < tokens.len() {
        return parse_to_function(alloc, tokens, functions, limits, form);
    }
    parse_whole(alloc, tokens, limits, form)
}
