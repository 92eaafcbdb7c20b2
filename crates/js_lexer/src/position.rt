ghost use Rattle.std.specs.Prelude.{◌≡◌, ◌+◌, ◌-◌, ◌≤◌, ◌<◌, ◌^◌, false, length, encode_utf8_all};
ghost use Rattle.std.specs.Char.{len_utf8};
ghost use Rattle.js_lexer.specs.Position as spec;

use crate::characters::is_line_terminator;
use dl_text::Place;

/// Where reading stands in a text: the bytes behind it, the place, and whether the last character
/// was a carriage return.
#[derive(Clone, Copy, Debug)]
pub struct Position {
    pub bytes: usize,
    pub place: Place,
    pub after_return: bool,
}

/// The place behind one more character.
fn place_past(after_return: bool, c: char, place: Place) -> Place
    requires line { place.line + 1 < 2 ^ 32 }
    requires column { place.column + 1 < 2 ^ 32 }
    ensures { result ≡ spec.place_past after_return c place }
{
    if is_line_terminator(c) {
        if after_return && c == '\n' {
            place
        } else {
            Place {
                line: place.line + 1,
                column: 1,
            }
        }
    } else {
        Place {
            line: place.line,
            column: place.column + 1,
        }
    }
}

impl Position {
    /// Where a text begins, behind so many bytes.
    pub fn start(bytes: usize) -> Position
        ensures { result ≡ spec.at_start bytes }
    {
        Position {
            bytes,
            place: Place { line: 1, column: 1 },
            after_return: false,
        }
    }

    /// Behind one more character.
    fn past(self, c: char) -> Position
        requires fits { self.bytes + len_utf8 c < 2 ^ 32 - 1 }
        requires bounded { spec.IsBounded self }
        ensures value { result ≡ spec.past self c }
        ensures bounded { spec.IsBounded result }
    {
        Position {
            bytes: self.bytes + c.len_utf8(),
            place: place_past(self.after_return, c, self.place),
            after_return: c == '\r',
        }
    }

    /// Behind these characters.
    #[tactic(auto, using(crate::proofs::Bytes::passed_more, crate::proofs::Bytes::bytes_left))]
    pub fn passed(self, characters: &[char]) -> Position
        requires fits { self.bytes + length (encode_utf8_all characters.now) < 2 ^ 32 - 1 }
        requires bounded { spec.IsBounded self }
        ensures value { result ≡ spec.passed self characters.now }
        ensures bounded { spec.IsBounded result }
    {
        let mut position = self;
        for c in characters {
            position = position.past(*c);
        }
        position
    }
}
