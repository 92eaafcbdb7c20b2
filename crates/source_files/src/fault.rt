//! Why there is no tree of a script.

ghost use Rattle.std.specs.Prelude.{◌≡◌};
ghost use Rattle.source_files.specs.Reading.{error_of, lexical, parsed};

use dl_ports::PortError;
use dl_text::Place;
use js_lexer::{LexError, LexKind};
use js_parser::{Construct, ParseError};

/// Why a script is refused, the first of these that applies.
#[derive(Clone, Copy, Debug, PartialEq, Eq)]
pub enum ScriptFault {
    /// Its bytes are not UTF-8. The longest of their prefixes that is has this length.
    NotUtf8(u64),
    /// It has more bytes than are left for it.
    TooLong,
    /// The first fault of its characters (ES3 section 7).
    Lexical(Place, LexKind),
    /// No script goes on with the token at this place.
    Syntax(Place),
    /// Nor with this one, which is refused by a name of its own.
    Construct(Place, Construct),
    /// A limit of depth, nesting or brackets breaks in the statement at this place.
    TooDeep(Place),
    /// There are too many functions from the one at this place on.
    TooMany(Place),
}

/// Why there is no tree of a file.
#[derive(Clone, Copy, Debug, PartialEq, Eq)]
pub enum SourceError {
    /// The store failed at the read.
    ReadFault,
    /// The store has no such file.
    Missing,
    /// The file is no source script.
    Refused(ScriptFault),
    OutOfMemory,
}

impl From<PortError> for SourceError {
    ghost from_gives = { λ port error. error ≡ error_of port };

    fn from(error: PortError) -> SourceError {
        match error {
            PortError::Failed => SourceError::ReadFault,
            PortError::OutOfMemory => SourceError::OutOfMemory,
        }
    }
}

impl From<LexError> for SourceError {
    ghost from_gives = { λ lexer error. error ≡ lexical lexer };

    fn from(error: LexError) -> SourceError {
        match error {
            LexError::Lexical(place, kind) => {
                SourceError::Refused(ScriptFault::Lexical(place, kind))
            }
            LexError::OutOfMemory => SourceError::OutOfMemory,
        }
    }
}

impl From<ParseError> for SourceError {
    ghost from_gives = { λ parser error. error ≡ parsed parser };

    fn from(error: ParseError) -> SourceError {
        match error {
            ParseError::Syntax(place) => SourceError::Refused(ScriptFault::Syntax(place)),
            ParseError::Construct(place, construct) => {
                SourceError::Refused(ScriptFault::Construct(place, construct))
            }
            ParseError::TooDeep(place) => SourceError::Refused(ScriptFault::TooDeep(place)),
            ParseError::TooMany(place) => SourceError::Refused(ScriptFault::TooMany(place)),
            ParseError::OutOfMemory => SourceError::OutOfMemory,
        }
    }
}
