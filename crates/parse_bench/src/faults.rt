//! How faults are told: a name, and the line and column where the fault stands.

use dl_text::{Place, TextError};
use js_lexer::LexError;
use js_parser::ParseError;
use std::alloc::{AllocError, Global};

fn placed(alloc: Global, name: &str, place: Place) -> Result<String, AllocError> {
    let line = place.line;
    let column = place.column;
    format!(in alloc; "{name} {line}:{column}")
}

fn out_of_memory(alloc: Global) -> Result<String, AllocError> {
    String::from_str(alloc, "OutOfMemory")
}

/// Why bytes are no text; the number is that of the bytes before the fault.
pub fn text_fault(alloc: Global, error: TextError) -> Result<String, AllocError> {
    match error {
        TextError::NotUtf8(length) => format!(in alloc; "NotUtf8 {length}"),
        TextError::OutOfMemory => out_of_memory(alloc),
    }
}

/// Why a text has no tokens.
pub fn lex_fault(alloc: Global, error: LexError) -> Result<String, AllocError> {
    match error {
        LexError::Lexical(place, kind) => {
            let name = format!(in alloc; "Lexical {kind}")?;
            placed(alloc, name.as_str(), place)
        }
        LexError::OutOfMemory => out_of_memory(alloc),
    }
}

/// Why tokens are no accepted script.
pub fn parse_fault(alloc: Global, error: ParseError) -> Result<String, AllocError> {
    match error {
        ParseError::Syntax(place) => placed(alloc, "Syntax", place),
        ParseError::Construct(place, construct) => {
            let name = format!(in alloc; "Construct {construct:?}")?;
            placed(alloc, name.as_str(), place)
        }
        ParseError::TooDeep(place) => placed(alloc, "TooDeep", place),
        ParseError::TooMany(place) => placed(alloc, "TooMany", place),
        ParseError::OutOfMemory => out_of_memory(alloc),
    }
}
