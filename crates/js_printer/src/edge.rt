ghost use Rattle.std.specs.Prelude.{◌≡◌, chars};
ghost use Rattle.std.specs.Char.{IsScalar};
ghost use Rattle.js_lexer.specs.Characters as characters;
ghost use Rattle.js_printer.specs.Edges as spec;

/// What the rule of spaces asks of an end of a token.
#[derive(Clone, Copy, Debug)]
pub struct Edge {
    /// The character there may go on with a name.
    pub continues: bool,
    /// Before it `+` needs a space; or it is the end of the token `+`.
    pub plus: bool,
    /// The same of `-`.
    pub minus: bool,
}

impl Edge {
    /// The edge of no token.
    pub fn nothing() -> Edge
        ensures { result ≡ spec.nothing }
    {
        Edge {
            continues: false,
            plus: false,
            minus: false,
        }
    }

    /// Whether a space stands between a token with this edge and one that begins with the other.
    pub fn meets(self, after: Edge) -> bool
        ensures { result ≡ spec.meet self after }
    {
        (self.continues && after.continues)
            || (self.plus && after.plus)
            || (self.minus && after.minus)
    }
}

/// Whether a name may go on with the character (ES3 7.6).
fn continues_name(c: char) -> bool
    ensures { result ≡ characters.continues_name c }
{
    c == '$' || c == '_' || unicode_ident::is_xid_continue(c)
}

/// The edge at a character, where `counts` says whether it may be a sign.
fn edge_at(c: char, counts: bool) -> Edge
    ensures value { result ≡ spec.at_character c counts }
    ensures scalar { IsScalar c }
{
    Edge {
        continues: continues_name(c),
        plus: counts && c == '+',
        minus: counts && c == '-',
    }
}

/// The edge that a token has for those before it.
#[tactic(auto, using(crate::proofs::Edges::front_first, crate::proofs::Edges::front_none))]
pub fn front(text: &str) -> Edge
    ensures { result ≡ spec.front (chars text.now) }
{
    match text.chars().next() {
        Some(c) => edge_at(c, true),
        None => Edge::nothing(),
    }
}

/// The edge that a token has for those behind it: it is `+` or `-` alone, or none of these.
#[tactic(auto, using(crate::proofs::Edges::back_none))]
pub fn back(text: &str) -> Edge
    ensures { result ≡ spec.back (chars text.now) }
{
    let mut characters = text.chars();
    match characters.next_back() {
        Some(c) => edge_at(c, characters.next().is_none()),
        None => Edge::nothing(),
    }
}
