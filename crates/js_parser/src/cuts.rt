//! Where tokens break a bound that their number alone may break.

ghost use Rattle.std.specs.Prelude.{◌≡◌, ◌≤◌, ◌<◌, ◌+◌, ◌^◌, length, take};
ghost use Rattle.js_parser.specs.Accepted as spec;
ghost use Rattle.js_parser.specs.Symbols.{symbols};

use js_lexer::{Mark, Token, TokenKind, Word};

/// The brackets that are open behind a token, where so many are open before it.
fn opened(kind: &TokenKind, before: u64) -> u64
    requires { before < 2 ^ 32 }
    ensures { result ≡ spec.opened kind.now before }
{
    match kind {
        TokenKind::Mark(Mark::OpenParenthesis | Mark::OpenBracket | Mark::OpenBrace) => before + 1,
        TokenKind::Mark(Mark::CloseParenthesis | Mark::CloseBracket | Mark::CloseBrace) => {
            before.saturating_sub(1)
        }
        _ => before,
    }
}

/// The functions up to a token, where there are so many besides.
fn counted(kind: &TokenKind, functions: u64) -> u64
    requires { functions < 2 ^ 32 }
    ensures { result ≡ spec.counted kind.now functions }
{
    match kind {
        TokenKind::Word(Word::Function) => functions + 1,
        _ => functions,
    }
}

/// How many tokens stand before the first behind which more brackets are open than allowed.
pub fn first_bracket_over(tokens: &[Token], most: u32) -> usize
    ensures within { result ≤ length tokens.now }
    ensures keeps { spec.most_open 0 (symbols (take result tokens.now)) ≤ most }
    ensures over { result < length tokens.now
        → most < spec.most_open 0 (symbols (take (result + 1) tokens.now)) }
{
    let mut brackets = 0;
    for (i, token) in tokens.iter().enumerate() {
        brackets = opened(&token.kind, brackets);
        if brackets > u64::from(most) {
            return i;
        }
    }
    tokens.len()
}

/// How many tokens stand before the first that makes more functions than allowed.
pub fn first_function_over(tokens: &[Token], most: u32) -> usize
    ensures within { result ≤ length tokens.now }
    ensures keeps { spec.functions_in (symbols (take result tokens.now)) ≤ most }
    ensures over { result < length tokens.now
        → most < spec.functions_in (symbols (take (result + 1) tokens.now)) }
{
    let mut functions = 0;
    for (i, token) in tokens.iter().enumerate() {
        functions = counted(&token.kind, functions);
        if functions > u64::from(most) {
            return i;
        }
    }
    tokens.len()
}
