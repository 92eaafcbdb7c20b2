ghost use Rattle.std.specs.Prelude.{◌≡◌, ◌+◌, ◌-◌, ◌<◌, ◌^◌, [], ◌∷◌, ◌++◌, length, OnOk, Some, encode_utf8_all};
ghost use Rattle.js_lexer.specs.Position as spec;

use crate::characters::has_line_terminator;
use crate::position::Position;
use crate::token::{Token, TokenKind};
use std::alloc::AllocError;

/// What was read of a text: its tokens so far, where reading stands, and whether a line terminator
/// stands behind the last token.
#[derive(Drop)]
pub struct Reading {
    pub tokens: Vec<Token>,
    pub position: Position,
    pub newline: bool,
}

impl Reading {
    /// Takes a piece: these characters, which are this token if any.
    pub fn take(&mut self, characters: &[char], kind: Option<TokenKind>) -> Result<(), AllocError>
        requires fits { self.old.position.bytes + length (encode_utf8_all characters.now)
            < 2 ^ 32 - 1 }
        requires bounded { spec.IsBounded self.old.position }
        ensures tokens { OnOk result (self.new.tokens.items ≡ self.old.tokens.items
            ++ spec.tokens_at self.old.position self.old.newline characters.now kind) }
        ensures position { OnOk result
            (self.new.position ≡ spec.passed self.old.position characters.now) }
        ensures newline { OnOk result
            (self.new.newline ≡ spec.newline_after self.old.newline characters.now kind) }
        ensures bounded { OnOk result (spec.IsBounded self.new.position) }
    {
        let position = self.position;
        let behind = position.passed(characters);
        match kind {
            Some(kind) => {
                self.tokens.push(Token {
                    kind,
                    start: position.bytes,
                    end: behind.bytes,
                    place: position.place,
                    newline: self.newline,
                })?;
                self.newline = false;
            }
            None => self.newline = self.newline || has_line_terminator(characters),
        }
        self.position = behind;
        Ok(())
    }
}
