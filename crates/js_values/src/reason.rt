use std::fmt;

/// Why a run stops, which no `catch` or `finally` of the script sees.
#[derive(Clone, Copy, Debug, PartialEq, Eq)]
pub enum Reason {
    /// A quotient of whole numbers is not whole.
    Fraction,
    /// A whole number has more than 53 bits.
    TooLarge,
    /// A number other than 0 and NaN is divided by 0, or there is none to choose from.
    Infinite,
    /// A text is a number with a point or an exponent, or an infinity.
    NumberText,
    /// The text of a function is asked for.
    FunctionText,
    /// A primitive would be put into an object.
    Wrapper,
    /// A name is one of the program's own.
    ReservedName,
    /// A string is longer than 2^26 units.
    LongText,
}

impl fmt::Display for Reason {
    ghost use Rattle.std.specs.Prelude.{Some};
    ghost use Rattle.js_values.specs.Reasons.{reason_text};

    ghost output = { λ reason. Some (reason_text reason) };

    fn fmt<W: fmt::Write>(&self, f: &mut fmt::Formatter<W>) -> fmt::Result {
        f.write_str(match self {
            Reason::Fraction => "Fraction",
            Reason::TooLarge => "TooLarge",
            Reason::Infinite => "Infinite",
            Reason::NumberText => "NumberText",
            Reason::FunctionText => "FunctionText",
            Reason::Wrapper => "Wrapper",
            Reason::ReservedName => "ReservedName",
            Reason::LongText => "LongText",
        })
    }
}
