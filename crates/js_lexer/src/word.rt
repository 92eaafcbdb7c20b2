ghost use Rattle.std.specs.Prelude.{◌≡◌};
ghost use Rattle.std.specs.List.{find};
ghost use Rattle.js_lexer.specs.Words as spec;

use crate::characters::units_begin;

/// A word: a name that the language keeps for itself (ES3 7.5.2, 7.5.3, 7.8.1 and 7.8.2).
#[derive(Clone, Copy, Debug, PartialEq, Eq)]
pub enum Word {
    Break,
    Case,
    Catch,
    Continue,
    Default,
    Delete,
    Do,
    Else,
    Finally,
    For,
    Function,
    If,
    In,
    InstanceOf,
    New,
    Return,
    Switch,
    This,
    Throw,
    Try,
    TypeOf,
    Var,
    Void,
    While,
    With,
    Null,
    True,
    False,
    Abstract,
    Boolean,
    Byte,
    Char,
    Class,
    Const,
    Debugger,
    Double,
    Enum,
    Export,
    Extends,
    Final,
    Float,
    Goto,
    Implements,
    Import,
    Int,
    Interface,
    Long,
    Native,
    Package,
    Private,
    Protected,
    Public,
    Short,
    Static,
    Super,
    Synchronized,
    Throws,
    Transient,
    Volatile,
}

/// Every word.
const WORDS: [Word; 59] = [
    Word::Break,
    Word::Case,
    Word::Catch,
    Word::Continue,
    Word::Default,
    Word::Delete,
    Word::Do,
    Word::Else,
    Word::Finally,
    Word::For,
    Word::Function,
    Word::If,
    Word::In,
    Word::InstanceOf,
    Word::New,
    Word::Return,
    Word::Switch,
    Word::This,
    Word::Throw,
    Word::Try,
    Word::TypeOf,
    Word::Var,
    Word::Void,
    Word::While,
    Word::With,
    Word::Null,
    Word::True,
    Word::False,
    Word::Abstract,
    Word::Boolean,
    Word::Byte,
    Word::Char,
    Word::Class,
    Word::Const,
    Word::Debugger,
    Word::Double,
    Word::Enum,
    Word::Export,
    Word::Extends,
    Word::Final,
    Word::Float,
    Word::Goto,
    Word::Implements,
    Word::Import,
    Word::Int,
    Word::Interface,
    Word::Long,
    Word::Native,
    Word::Package,
    Word::Private,
    Word::Protected,
    Word::Public,
    Word::Short,
    Word::Static,
    Word::Super,
    Word::Synchronized,
    Word::Throws,
    Word::Transient,
    Word::Volatile,
];

impl Word {
    /// How the word is written.
    pub fn spelling(self) -> &'static str
        ensures { result.now ≡ spec.spelling self }
    {
        match self {
            Word::Break => "break",
            Word::Case => "case",
            Word::Catch => "catch",
            Word::Continue => "continue",
            Word::Default => "default",
            Word::Delete => "delete",
            Word::Do => "do",
            Word::Else => "else",
            Word::Finally => "finally",
            Word::For => "for",
            Word::Function => "function",
            Word::If => "if",
            Word::In => "in",
            Word::InstanceOf => "instanceof",
            Word::New => "new",
            Word::Return => "return",
            Word::Switch => "switch",
            Word::This => "this",
            Word::Throw => "throw",
            Word::Try => "try",
            Word::TypeOf => "typeof",
            Word::Var => "var",
            Word::Void => "void",
            Word::While => "while",
            Word::With => "with",
            Word::Null => "null",
            Word::True => "true",
            Word::False => "false",
            Word::Abstract => "abstract",
            Word::Boolean => "boolean",
            Word::Byte => "byte",
            Word::Char => "char",
            Word::Class => "class",
            Word::Const => "const",
            Word::Debugger => "debugger",
            Word::Double => "double",
            Word::Enum => "enum",
            Word::Export => "export",
            Word::Extends => "extends",
            Word::Final => "final",
            Word::Float => "float",
            Word::Goto => "goto",
            Word::Implements => "implements",
            Word::Import => "import",
            Word::Int => "int",
            Word::Interface => "interface",
            Word::Long => "long",
            Word::Native => "native",
            Word::Package => "package",
            Word::Private => "private",
            Word::Protected => "protected",
            Word::Public => "public",
            Word::Short => "short",
            Word::Static => "static",
            Word::Super => "super",
            Word::Synchronized => "synchronized",
            Word::Throws => "throws",
            Word::Transient => "transient",
            Word::Volatile => "volatile",
        }
    }
}

fn is_written_so(word: Word, units: &[u16]) -> bool
    ensures { result ≡ spec.is_spelled (spec.spelling word) units.now }
{
    let spelling = word.spelling();
    spelling.len() == units.len() && units_begin(spelling, units)
}

fn find_word(words: &[Word], units: &[u16]) -> Option<Word>
    ensures { result ≡ find (λ word. spec.is_spelled (spec.spelling word) units.now) words.now }
{
    for word in words {
        if is_written_so(*word, units) {
            return Some(*word);
        }
    }
    None
}

/// The word that is written so.
pub fn word_of(units: &[u16]) -> Option<Word>
    ensures { result ≡ spec.word_of units.now }
{
    find_word(&WORDS, units)
}
