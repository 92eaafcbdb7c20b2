//! Where statements end (ES3 7.9.1), and what they are told apart by.

ghost use Rattle.std.specs.Prelude.{◌≡◌, ◌≤◌, ◌<◌, length, IsTrue};
ghost use Rattle.std.specs.Option.{option_copied};
ghost use Rattle.js_parser.specs.declared.form.Form.{Form};
ghost use Rattle.js_parser.specs.Machine as rule;
ghost use Rattle.js_parser.specs.Marks as mark;
ghost use Rattle.js_parser.specs.Reads.{Passes, at};
ghost use Rattle.js_parser.specs.StatementKinds as kinds;

use crate::stop::Stop;
use crate::tokens::Tokens;
use dl_text::Units;
use js_lexer::{Mark, TokenKind, Word};

impl<'t> Tokens<'t> {
    /// Whether the next token is `var`.
    pub fn at_var(&self) -> bool
        ensures is { result ≡ at mark.is_var self.now }
        ensures some { IsTrue result → 0 < length self.now }
    {
        match self.front() {
            Some(token) => matches!(token.kind, TokenKind::Word(Word::Var)),
            None => false,
        }
    }

    /// The label on the line, if there is one (ES3 12.7 and 12.8).
    pub fn label_on_line(&self) -> Option<&'t Units>
        ensures { option_copied result ≡ kinds.label_on_line self.now }
    {
        match self.front() {
            Some(token) => match &token.kind {
                TokenKind::Name(name) if !token.newline => Some(name),
                _ => None,
            },
            None => None,
        }
    }

    /// Whether the next token is `;`, on the line.
    pub fn at_semicolon_on_line(&self) -> bool
        ensures { result ≡ kinds.semicolon_on_line self.now }
    {
        match self.front() {
            Some(token) => matches!(token.kind, TokenKind::Mark(Mark::Semicolon)) && !token.newline,
            None => false,
        }
    }

    /// Whether a token is left, on the line.
    pub fn is_on_line(&self) -> bool
        ensures { result ≡ kinds.is_on_line self.now }
    {
        match self.front() {
            Some(token) => !token.newline,
            None => false,
        }
    }

    /// Whether a semicolon may be inserted here, as the end of a statement (ES3 7.9.1).
    pub fn may_end(&self) -> bool
        ensures { result ≡ kinds.may_end self.now }
    {
        match self.front() {
            Some(token) => {
                token.newline
                    || matches!(
                        token.kind,
                        TokenKind::Mark(Mark::CloseBrace) | TokenKind::End
                    )
            }
            None => true,
        }
    }

    /// Passes the end of a statement: `;`, or nothing where it may be inserted (ES3 7.9.1).
    pub fn ended(&mut self) -> Result<(), Stop>
        ensures reads { (form : Form) → Passes form rule.ended result self.old self.new }
        ensures shorter { length self.new ≤ length self.old }
    {
        if self.at_semicolon() {
            self.take();
            return Ok(());
        }
        if !self.may_end() {
            return Err(Stop::Broken);
        }
        Ok(())
    }

    /// The same, where only a `;` on the line is passed (ES3 7.9.1).
    pub fn ended_at_once(&mut self) -> Result<(), Stop>
        ensures reads { (form : Form) → Passes form rule.ended_at_once result self.old self.new }
        ensures shorter { length self.new ≤ length self.old }
    {
        if self.at_semicolon_on_line() {
            self.take();
            return Ok(());
        }
        if !self.may_end() {
            return Err(Stop::Broken);
        }
        Ok(())
    }
}
