ghost use Rattle.std.specs.Prelude.{◌≡◌, Some};
ghost use Rattle.doloto_app.specs.Ends.{number_of, text_of};

use crate::words::WordFault;
use dl_text::Text;
use play::FirstFile;
use source_files::ScriptFault;
use std::{fmt, str};

/// Why a file was refused.
#[derive(Clone, Copy, Debug, PartialEq, Eq)]
pub enum Refusal {
    /// A file of the first path breaks its form.
    First(FirstFile),
    /// The script of this number, from 1, is no source script.
    Script(u32, ScriptFault),
}

/// How a command ends.
#[derive(Debug, Drop)]
pub enum Status {
    Ended,
    Words(WordFault),
    Refused(Refusal),
    OutOfSteps,
    ReadFault,
    WriteFault,
    OutOfMemory,
    /// The store has no file of this name.
    Missing(Text),
}

impl Status {
    /// The number with which the program ends.
    pub fn number(&self) -> u8
        ensures { result ≡ number_of self.now }
    {
        match self {
            Status::Ended => 0,
            Status::Words(_) => 1,
            Status::Refused(_) => 2,
            Status::OutOfSteps => 3,
            Status::ReadFault => 6,
            Status::WriteFault => 7,
            Status::OutOfMemory => 8,
            Status::Missing(_) => 10,
        }
    }
}

impl fmt::Display for Status {
    ghost output = { λ status. Some (text_of status) };

    fn fmt<W: fmt::Write>(&self, f: &mut fmt::Formatter<W>) -> fmt::Result {
        match self {
            Status::Ended => f.write_str("ended"),
            Status::Words(WordFault::First) => f.write_str("words: First"),
            Status::Refused(Refusal::First(FirstFile::Page)) => f.write_str("form page"),
            Status::Refused(Refusal::First(FirstFile::Manifest)) => f.write_str("form site.txt"),
            Status::Refused(Refusal::First(FirstFile::Script)) => f.write_str("form s1.js"),
            Status::Refused(Refusal::First(FirstFile::Cluster(cluster))) => {
                write!(f, "form c{cluster}.txt")
            }
            Status::Refused(Refusal::Script(number, fault)) => {
                write!(f, "script {number}: {fault}")
            }
            Status::OutOfSteps => f.write_str("out of steps"),
            Status::ReadFault => f.write_str("read fault"),
            Status::WriteFault => f.write_str("write fault"),
            Status::OutOfMemory => f.write_str("out of memory"),
            Status::Missing(name) => match str::from_utf8(name.items()) {
                Ok(name) => write!(f, "missing: {name}"),
                Err(_) => f.write_str("missing"),
            },
        }
    }
}
