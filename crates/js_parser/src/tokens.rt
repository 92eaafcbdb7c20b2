//! A cursor over tokens.

ghost use Rattle.std.specs.Prelude.{◌≡◌, ◌-◌, ◌≤◌, ◌<◌, ◌^◌, ◌∷◌, [], Bool, length, IfOk, IfSome, IsTrue, MatchOption, not};
ghost use Rattle.std.specs.Option.{option_copied, option_map};
ghost use Rattle.js_lexer.specs.declared.token.TokenKind.{TokenKind};
ghost use Rattle.js_parser.specs.declared.form.Form.{Form};
ghost use Rattle.js_parser.specs.Machine as rule;
ghost use Rattle.js_parser.specs.Marks as mark;
ghost use Rattle.js_parser.specs.Pieces as pieces;
ghost use Rattle.js_parser.specs.Reads.{Passes, Reads, at};
ghost use Rattle.js_parser.specs.StatementKinds as kinds;
ghost use Rattle.js_parser.specs.Symbols.{symbol, symbols, behind};
ghost use Rattle.js_parser.specs.View as view;

use crate::names::is_written_so;
use crate::operators;
use crate::operators::Operator;
use crate::stop::Stop;
use dl_text::Units;
use js_lexer::{Mark, Token, TokenKind, Word};
use js_tree::{BinaryOp, PostfixOp, PrefixOp};
use std::marker::Model;

/// The tokens that are left.
#[derive(Drop)]
pub struct Tokens<'t> {
    rest: &'t [Token],
}

impl<'t> Model for Tokens<'t> {
    ghost use Rattle.js_parser.specs.Symbols.{Symbols, symbols};

    ghost Value = { Symbols };

    ghost view = { λ tokens. symbols tokens.rest.now };
}

impl<'t> Tokens<'t> {
    pub fn new(rest: &'t [Token]) -> Tokens<'t>
        ensures { result ≡ symbols rest.now }
    {
        Tokens { rest }
    }

    /// The next token, if one is left.
    pub fn front(&self) -> Option<&'t Token>
        ensures is { MatchOption result (self.now ≡ [])
            (λ token. self.now ≡ symbol token.now ∷ behind self.now) }
        ensures some { IfSome result (λ _. 0 < length self.now) }
    {
        self.rest.first()
    }

    /// How many tokens are left.
    pub fn len(&self) -> usize
        ensures is { result ≡ length self.now }
        ensures small { length self.now < 2 ^ 63 }
    {
        self.rest.len()
    }

    /// Whether no token is left.
    pub fn is_empty(&self) -> bool
        ensures none { IsTrue result → self.now ≡ [] }
        ensures some { IsTrue (not result) → 0 < length self.now }
    {
        self.rest.is_empty()
    }

    /// Passes the next token.
    pub fn take(&mut self)
        ensures passed { self.new ≡ behind self.old }
        ensures counted { length self.new ≡ length self.old - 1 }
    {
        if let [_, rest @ ..] = self.rest {
            self.rest = rest;
        }
    }

    /// Whether the next token is `,`.
    pub fn at_comma(&self) -> bool
        ensures is { result ≡ at mark.is_comma self.now }
        ensures some { IsTrue result → 0 < length self.now }
    {
        match self.front() {
            Some(token) => matches!(token.kind, TokenKind::Mark(Mark::Comma)),
            None => false,
        }
    }

    /// Whether the next token is `:`.
    pub fn at_colon(&self) -> bool
        ensures is { result ≡ at rule.is_colon self.now }
        ensures some { IsTrue result → 0 < length self.now }
    {
        match self.front() {
            Some(token) => matches!(token.kind, TokenKind::Mark(Mark::Colon)),
            None => false,
        }
    }

    /// Whether the next token is `;`.
    pub fn at_semicolon(&self) -> bool
        ensures is { result ≡ at rule.is_semicolon self.now }
        ensures some { IsTrue result → 0 < length self.now }
    {
        match self.front() {
            Some(token) => matches!(token.kind, TokenKind::Mark(Mark::Semicolon)),
            None => false,
        }
    }

    /// Whether the next token is `?`.
    pub fn at_question(&self) -> bool
        ensures is { result ≡ at mark.is_question self.now }
        ensures some { IsTrue result → 0 < length self.now }
    {
        match self.front() {
            Some(token) => matches!(token.kind, TokenKind::Mark(Mark::Question)),
            None => false,
        }
    }

    /// Whether the next token is `.`.
    pub fn at_dot(&self) -> bool
        ensures is { result ≡ at mark.is_dot self.now }
        ensures some { IsTrue result → 0 < length self.now }
    {
        match self.front() {
            Some(token) => matches!(token.kind, TokenKind::Mark(Mark::Dot)),
            None => false,
        }
    }

    /// Whether the next token is `(`.
    pub fn at_open_parenthesis(&self) -> bool
        ensures is { result ≡ at rule.is_open_parenthesis self.now }
        ensures some { IsTrue result → 0 < length self.now }
    {
        match self.front() {
            Some(token) => matches!(token.kind, TokenKind::Mark(Mark::OpenParenthesis)),
            None => false,
        }
    }

    /// Whether the next token is `)`.
    pub fn at_close_parenthesis(&self) -> bool
        ensures is { result ≡ at rule.is_close_parenthesis self.now }
        ensures some { IsTrue result → 0 < length self.now }
    {
        match self.front() {
            Some(token) => matches!(token.kind, TokenKind::Mark(Mark::CloseParenthesis)),
            None => false,
        }
    }

    /// Whether the next token is `[`.
    pub fn at_open_bracket(&self) -> bool
        ensures is { result ≡ at mark.is_open_bracket self.now }
        ensures some { IsTrue result → 0 < length self.now }
    {
        match self.front() {
            Some(token) => matches!(token.kind, TokenKind::Mark(Mark::OpenBracket)),
            None => false,
        }
    }

    /// Whether the next token is `]`.
    pub fn at_close_bracket(&self) -> bool
        ensures is { result ≡ at rule.is_close_bracket self.now }
        ensures some { IsTrue result → 0 < length self.now }
    {
        match self.front() {
            Some(token) => matches!(token.kind, TokenKind::Mark(Mark::CloseBracket)),
            None => false,
        }
    }

    /// Whether the next token is `{`.
    pub fn at_open_brace(&self) -> bool
        ensures is { result ≡ at rule.is_open_brace self.now }
        ensures some { IsTrue result → 0 < length self.now }
    {
        match self.front() {
            Some(token) => matches!(token.kind, TokenKind::Mark(Mark::OpenBrace)),
            None => false,
        }
    }

    /// Whether the next token is `}`.
    pub fn at_close_brace(&self) -> bool
        ensures is { result ≡ at rule.is_close_brace self.now }
        ensures some { IsTrue result → 0 < length self.now }
    {
        match self.front() {
            Some(token) => matches!(token.kind, TokenKind::Mark(Mark::CloseBrace)),
            None => false,
        }
    }

    /// Whether the next token is `=`.
    pub fn at_assign(&self) -> bool
        ensures is { result ≡ at mark.is_assign self.now }
        ensures some { IsTrue result → 0 < length self.now }
    {
        match self.front() {
            Some(token) => matches!(token.kind, TokenKind::Mark(Mark::Assign)),
            None => false,
        }
    }

    /// Whether no token is left.
    pub fn are_over(&self) -> bool
        ensures { result ≡ pieces.are_over self.now }
    {
        self.rest.is_empty()
    }

    /// Whether the next token is the name `$dl_get`.
    pub fn at_get(&self) -> bool
        ensures is { result ≡ at rule.is_get self.now }
        ensures some { IsTrue result → 0 < length self.now }
    {
        match self.front() {
            Some(token) => is_get(&token.kind),
            None => false,
        }
    }

    /// Whether the next token is `new`.
    pub fn at_new(&self) -> bool
        ensures is { result ≡ at mark.is_new self.now }
        ensures some { IsTrue result → 0 < length self.now }
    {
        match self.front() {
            Some(token) => matches!(token.kind, TokenKind::Word(Word::New)),
            None => false,
        }
    }

    /// Whether the next token is `while`.
    pub fn at_while(&self) -> bool
        ensures is { result ≡ at rule.is_while self.now }
        ensures some { IsTrue result → 0 < length self.now }
    {
        match self.front() {
            Some(token) => matches!(token.kind, TokenKind::Word(Word::While)),
            None => false,
        }
    }

    /// Whether the next token is `else`.
    pub fn at_else(&self) -> bool
        ensures is { result ≡ at mark.is_else self.now }
        ensures some { IsTrue result → 0 < length self.now }
    {
        match self.front() {
            Some(token) => matches!(token.kind, TokenKind::Word(Word::Else)),
            None => false,
        }
    }

    /// Whether the next token is `in`.
    pub fn at_in(&self) -> bool
        ensures is { result ≡ at mark.is_in self.now }
        ensures some { IsTrue result → 0 < length self.now }
    {
        match self.front() {
            Some(token) => matches!(token.kind, TokenKind::Word(Word::In)),
            None => false,
        }
    }

    /// Whether the next token is `catch`.
    pub fn at_catch(&self) -> bool
        ensures is { result ≡ at mark.is_catch self.now }
        ensures some { IsTrue result → 0 < length self.now }
    {
        match self.front() {
            Some(token) => matches!(token.kind, TokenKind::Word(Word::Catch)),
            None => false,
        }
    }

    /// Whether the next token is `finally`.
    pub fn at_finally(&self) -> bool
        ensures is { result ≡ at mark.is_finally self.now }
        ensures some { IsTrue result → 0 < length self.now }
    {
        match self.front() {
            Some(token) => matches!(token.kind, TokenKind::Word(Word::Finally)),
            None => false,
        }
    }

    /// Whether the next token is the end.
    pub fn at_end(&self) -> bool
        ensures is { result ≡ at rule.is_end self.now }
        ensures some { IsTrue result → 0 < length self.now }
    {
        match self.front() {
            Some(token) => matches!(token.kind, TokenKind::End),
            None => false,
        }
    }

    /// The operator between two operands that the next token is, if it binds as tightly as this
    /// level and may stand there.
    pub fn operator(&self, with_in: bool, least: u8) -> Option<Operator>
        ensures is { option_map view.operator result ≡ pieces.operator_at with_in least self.now }
        ensures some { IfSome result (λ _. 0 < length self.now) }
    {
        let op = operators::operator_of(&self.front()?.kind)?;
        if op.level() >= least && op.may_operate(with_in) {
            Some(op)
        } else {
            None
        }
    }

    /// The operator of an assignment that the next token is; None is `=`.
    pub fn assignment_operator(&self) -> Option<Option<BinaryOp>>
        ensures is { result ≡ pieces.first_as pieces.assignment_of self.now }
        ensures some { IfSome result (λ _. 0 < length self.now) }
    {
        operators::assignment_of(&self.front()?.kind)
    }

    /// The prefix operator that the next token is.
    pub fn prefix_operator(&self) -> Option<PrefixOp>
        ensures is { result ≡ pieces.first_as rule.prefix_of self.now }
        ensures some { IfSome result (λ _. 0 < length self.now) }
    {
        operators::prefix_of(&self.front()?.kind)
    }

    /// The postfix operator that the next token is, if it stands on the line.
    pub fn postfix_operator(&self) -> Option<PostfixOp>
        ensures is { result ≡ pieces.postfix_at self.now }
        ensures some { IfSome result (λ _. 0 < length self.now) }
    {
        let token = self.front()?;
        operators::postfix_of(&token.kind, token.newline)
    }

    /// Passes the next token where it is the one that is wanted.
    fn expect(&mut self, here: bool) -> Result<(), Stop>
        ensures reads { (form : Form) (test : TokenKind → Bool) → here ≡ at test self.old
            → Passes form (rule.expect test) result self.old self.new }
        ensures shorter { length self.new ≤ length self.old }
    {
        if !here {
            return Err(Stop::Broken);
        }
        self.take();
        Ok(())
    }

    /// Passes `:`.
    pub fn colon(&mut self) -> Result<(), Stop>
        ensures reads { (form : Form)
            → Passes form (rule.expect rule.is_colon) result self.old self.new }
        ensures shorter { length self.new ≤ length self.old }
    {
        let here = self.at_colon();
        self.expect(here)
    }

    /// Passes `;`.
    pub fn semicolon(&mut self) -> Result<(), Stop>
        ensures reads { (form : Form)
            → Passes form (rule.expect rule.is_semicolon) result self.old self.new }
        ensures shorter { length self.new ≤ length self.old }
    {
        let here = self.at_semicolon();
        self.expect(here)
    }

    /// Passes `(`.
    pub fn open_parenthesis(&mut self) -> Result<(), Stop>
        ensures reads { (form : Form)
            → Passes form (rule.expect rule.is_open_parenthesis) result self.old self.new }
        ensures shorter { length self.new ≤ length self.old }
    {
        let here = self.at_open_parenthesis();
        self.expect(here)
    }

    /// Passes `)`.
    pub fn close_parenthesis(&mut self) -> Result<(), Stop>
        ensures reads { (form : Form)
            → Passes form (rule.expect rule.is_close_parenthesis) result self.old self.new }
        ensures shorter { length self.new ≤ length self.old }
    {
        let here = self.at_close_parenthesis();
        self.expect(here)
    }

    /// Passes `]`.
    pub fn close_bracket(&mut self) -> Result<(), Stop>
        ensures reads { (form : Form)
            → Passes form (rule.expect rule.is_close_bracket) result self.old self.new }
        ensures shorter { length self.new ≤ length self.old }
    {
        let here = self.at_close_bracket();
        self.expect(here)
    }

    /// Passes `{`.
    pub fn open_brace(&mut self) -> Result<(), Stop>
        ensures reads { (form : Form)
            → Passes form (rule.expect rule.is_open_brace) result self.old self.new }
        ensures shorter { length self.new ≤ length self.old }
    {
        let here = self.at_open_brace();
        self.expect(here)
    }

    /// Passes `}`.
    pub fn close_brace(&mut self) -> Result<(), Stop>
        ensures reads { (form : Form)
            → Passes form (rule.expect rule.is_close_brace) result self.old self.new }
        ensures shorter { length self.new ≤ length self.old }
    {
        let here = self.at_close_brace();
        self.expect(here)
    }

    /// Passes `while`.
    pub fn while_word(&mut self) -> Result<(), Stop>
        ensures reads { (form : Form)
            → Passes form (rule.expect rule.is_while) result self.old self.new }
        ensures shorter { length self.new ≤ length self.old }
    {
        let here = self.at_while();
        self.expect(here)
    }

    /// The name that is the next token, if a colon stands behind it (ES3 12.12).
    pub fn label(&self) -> Option<&'t Units>
        ensures { option_copied result ≡ kinds.label_at self.now }
    {
        match self.rest {
            [name, colon, ..] => match (&name.kind, &colon.kind) {
                (TokenKind::Name(name), TokenKind::Mark(Mark::Colon)) => Some(name),
                _ => None,
            },
            _ => None,
        }
    }

    /// Passes the name `$dl_get`.
    pub fn get_name(&mut self) -> Result<(), Stop>
        ensures reads { (form : Form)
            → Passes form (rule.expect rule.is_get) result self.old self.new }
        ensures shorter { length self.new ≤ length self.old }
    {
        let here = self.at_get();
        self.expect(here)
    }

    /// Passes the `,` behind an item of a list. Without one the list is at its end.
    pub fn separator(&mut self) -> Result<bool, Stop>
        ensures reads { (form : Form)
            → Reads form (λ more. more) pieces.separated result self.old self.new }
        ensures shorter { length self.new ≤ length self.old }
        ensures passed { IfOk result (λ more. IsTrue more → length self.new < length self.old) }
    {
        if self.are_over() {
            return Err(Stop::Broken);
        }
        if !self.at_comma() {
            return Ok(false);
        }
        self.take();
        Ok(true)
    }
}

/// Whether a token is the name `$dl_get`.
fn is_get(kind: &TokenKind) -> bool
    ensures { result ≡ rule.is_get kind.now }
{
    match kind {
        TokenKind::Name(name) => is_written_so("$dl_get", name),
        _ => false,
    }
}
