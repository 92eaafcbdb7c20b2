//! The text that tells why a script is refused.

ghost use Rattle.std.specs.Prelude.{◌≡◌, Some};
ghost use Rattle.source_files.specs.FaultTexts.{construct_text, fault_text};

use crate::fault::ScriptFault;
use js_parser::Construct;
use std::fmt;

/// The name of what is refused.
fn name_of(construct: Construct) -> &'static str
    ensures { result.now ≡ construct_text construct }
{
    match construct {
        Construct::With => "With",
        Construct::Debugger => "Debugger",
        Construct::RegExp => "RegExp",
        Construct::DlName => "DlName",
        Construct::Eval => "Eval",
        Construct::FunctionName => "FunctionName",
        Construct::InfinityName => "InfinityName",
        Construct::Arguments => "Arguments",
        Construct::Callee => "Callee",
        Construct::Caller => "Caller",
        Construct::FunctionPlace => "FunctionPlace",
        Construct::RepeatedFormal => "RepeatedFormal",
    }
}

impl fmt::Display for ScriptFault {
    ghost output = { λ fault. Some (fault_text fault) };

    fn fmt<W: fmt::Write>(&self, f: &mut fmt::Formatter<W>) -> fmt::Result {
        match self {
            ScriptFault::NotUtf8(valid) => write!(f, "NotUtf8 at byte {valid}"),
            ScriptFault::TooLong => f.write_str("TooLong"),
            ScriptFault::Lexical(place, kind) => {
                let (line, column) = (place.line, place.column);
                write!(f, "{kind} at {line}:{column}")
            }
            ScriptFault::Syntax(place) => {
                let (line, column) = (place.line, place.column);
                write!(f, "Syntax at {line}:{column}")
            }
            ScriptFault::Construct(place, construct) => {
                let (line, column) = (place.line, place.column);
                let name = name_of(*construct);
                write!(f, "{name} at {line}:{column}")
            }
            ScriptFault::TooDeep(place) => {
                let (line, column) = (place.line, place.column);
                write!(f, "TooDeep at {line}:{column}")
            }
            ScriptFault::TooMany(place) => {
                let (line, column) = (place.line, place.column);
                write!(f, "TooMany at {line}:{column}")
            }
        }
    }
}
