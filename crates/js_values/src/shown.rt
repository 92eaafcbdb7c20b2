use crate::number::Num;
use dl_text::Units;

/// A value as a report shows it: an object by its rank.
#[derive(Debug, Drop)]
pub enum Shown {
    Undefined,
    Null,
    Bool(bool),
    Num(Num),
    Str(Units),
    /// The rank, from 1.
    Object(u64),
}
