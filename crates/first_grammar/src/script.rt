use dl_text::Text;
use sqlite_items::Items;

/// A statement of the first grammar.
#[derive(Drop)]
pub enum FirstStatement {
    /// `N();`, by the letter N.
    Call(u8),
    /// `host.out("CHARS");`, by the characters.
    Out(Text),
}

pub type FirstStatements = Items<FirstStatement>;

/// What stands between the braces of a function of the first grammar.
#[derive(Drop)]
pub enum FirstBody {
    Statements(FirstStatements),
    /// The stub of the entry of this number.
    Stub(u32),
}

/// A function declaration of the first grammar, by its letter.
#[derive(Drop)]
pub struct FirstFunction {
    pub name: u8,
    pub body: FirstBody,
}

/// A statement or a function declaration of the first grammar.
#[derive(Drop)]
pub enum FirstItem {
    Statement(FirstStatement),
    Function(FirstFunction),
}

pub type FirstItems = Items<FirstItem>;

/// A script of the first grammar.
#[derive(Drop)]
pub struct FirstScript {
    pub items: FirstItems,
}

/// A line of a cluster file: the number of an entry, and the statements of its function.
#[derive(Drop)]
pub struct FirstEntry {
    pub number: u32,
    pub body: FirstStatements,
}

pub type FirstEntries = Items<FirstEntry>;
