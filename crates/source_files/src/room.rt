//! What a script may take.

ghost use Rattle.std.specs.Prelude.{◌≡◌};
ghost use Rattle.source_files.specs.Sources.{limits, whole_room};

use js_parser::Limits;

/// What is left for a script, where the scripts before it have taken their part.
#[derive(Clone, Copy, Debug, PartialEq, Eq)]
pub struct SourceRoom {
    /// How many bytes its text may have.
    pub bytes: usize,
    /// How many functions it may have.
    pub functions: u32,
}

impl SourceRoom {
    /// What the first script may take: 8,388,608 bytes and 65,535 functions.
    pub fn whole() -> SourceRoom
        ensures { result ≡ whole_room }
    {
        SourceRoom {
            bytes: 8_388_608,
            functions: 65_535,
        }
    }

    /// The limits of the script.
    pub fn limits(self) -> Limits
        ensures { result ≡ limits self }
    {
        Limits {
            depth: 400,
            nesting: 64,
            brackets: 400,
            functions: self.functions,
        }
    }
}
