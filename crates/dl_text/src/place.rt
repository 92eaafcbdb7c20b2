/// A place in a text: a line and a column, each from 1 and in characters. LF, CR, CR LF, U+2028 and
/// U+2029 end a line.
#[derive(Clone, Copy, Debug, PartialEq, Eq)]
pub struct Place {
    pub line: u32,
    pub column: u32,
}
