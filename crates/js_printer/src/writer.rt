ghost use Rattle.std.specs.Prelude.{◌≡◌, ◌++◌, ◌∷◌, [], codes, OnOk, true, nat_lt};
ghost use Rattle.std.specs.Prelude.{chars, encode_utf8_all};
ghost use Rattle.std.specs.List.{list_all};
ghost use Rattle.dl_text.specs.Quote.{quoted};
ghost use Rattle.js_lexer.specs.declared.mark.Mark.TheVariants as mark;
ghost use Rattle.js_lexer.specs.declared.token.TokenKind.TheVariants as kind;
ghost use Rattle.js_tree.specs.Tree as plain;
ghost use Rattle.js_printer.specs.Edges as edges;
ghost use Rattle.js_printer.specs.Parts as parts;
ghost use Rattle.js_printer.specs.Printed as printed;
ghost use Rattle.js_printer.specs.PrintedText.{space};
ghost use Rattle.js_printer.specs.Written.{put, written, all_written};

use crate::edge::{Edge, back, front};
use dl_text::{Listed, Names, Text, Units, push_quoted_unit};
use itoa::Buffer;
use js_lexer::{Mark, Word, is_name};
use std::alloc::{AllocError, Global};

/// The text of the tokens that are written so far, and the edge of the last of them.
#[derive(Drop)]
pub struct Printer {
    alloc: Global,
    text: Text,
    last: Edge,
}

impl Printer {
    /// A printer of no token.
    pub fn new(alloc: Global) -> Printer
        ensures text { result.text ≡ [] }
        ensures last { result.last ≡ edges.nothing }
    {
        Printer {
            alloc,
            text: Text::new(alloc),
            last: Edge::nothing(),
        }
    }

    /// What is written.
    pub fn into_text(self) -> Text
        ensures { result ≡ self.text }
    {
        let Printer {
            alloc: _,
            text,
            last: _,
        } = self;
        text
    }

    /// Writes a token that is spelled so.
    pub fn write(&mut self, spelled: &str) -> Result<(), AllocError>
        ensures { OnOk result (self.new ≡ put self.old (chars spelled.now)) }
    {
        push_space(&mut self.text, self.last.meets(front(spelled)))?;
        self.text.extend(spelled.as_bytes())?;
        self.last = back(spelled);
        Ok(())
    }

    /// Writes a mark.
    pub fn mark(&mut self, mark: Mark) -> Result<(), AllocError>
        ensures { OnOk result (self.new ≡ written self.old (kind.Mark mark)) }
    {
        self.write(mark.spelling())
    }

    /// Writes a word.
    pub fn word(&mut self, word: Word) -> Result<(), AllocError>
        ensures { OnOk result (self.new ≡ written self.old (kind.Word word)) }
    {
        self.write(word.spelling())
    }

    /// Writes a number in decimal digits.
    pub fn number(&mut self, number: u64) -> Result<(), AllocError>
        ensures { OnOk result (self.new ≡ written self.old (kind.Number number)) }
    {
        let mut buffer = Buffer::new();
        self.write(buffer.format(number))
    }

    /// Writes a name as it is; a surrogate that has no partner is written as U+FFFD.
    pub fn name(&mut self, name: &Units) -> Result<(), AllocError>
        ensures { OnOk result (self.new ≡ written self.old (kind.Name name.now)) }
    {
        let spelled = String::from_utf16_lossy(self.alloc, name.items())?;
        self.write(spelled.as_str())
    }

    /// Writes the shown string of a text.
    pub fn string(&mut self, text: &Units) -> Result<(), AllocError>
        ensures { OnOk result (self.new ≡ written self.old (kind.Str text.now)) }
    {
        push_quoted(&mut self.text, text)?;
        self.last = Edge::nothing();
        Ok(())
    }

    /// Writes a key of an object literal: as a name where it is one that is no word and has ASCII
    /// characters only, and else as a string.
    pub fn key(&mut self, key: &Units) -> Result<(), AllocError>
        ensures { OnOk result (self.new ≡ written self.old (printed.key_kind key.now)) }
    {
        if is_name(key) && is_ascii(key.items()) {
            self.name(key)
        } else {
            self.string(key)
        }
    }

    /// Writes `true` or `false`.
    pub fn truth(&mut self, value: bool) -> Result<(), AllocError>
        ensures { OnOk result (self.new ≡ written self.old (printed.truth_kind value)) }
    {
        if value {
            self.word(Word::True)
        } else {
            self.word(Word::False)
        }
    }

    fn eval_name(&mut self) -> Result<(), AllocError>
        ensures { OnOk result (self.new ≡ written self.old (kind.Name (codes "eval"))) }
    {
        self.write("eval")
    }

    fn get_name(&mut self) -> Result<(), AllocError>
        ensures { OnOk result (self.new ≡ written self.old (kind.Name (codes "$dl_get"))) }
    {
        self.write("$dl_get")
    }

    fn use_name(&mut self) -> Result<(), AllocError>
        ensures { OnOk result (self.new ≡ written self.old (kind.Name (codes "$dl_use"))) }
    {
        self.write("$dl_use")
    }

    /// Writes `eval($dl_get(k))` of an entry.
    pub fn late(&mut self, entry: u32) -> Result<(), AllocError>
        ensures { OnOk result
            (self.new ≡ all_written self.old (printed.expr (plain.Late entry) true)) }
    {
        self.eval_name()?;
        self.mark(Mark::OpenParenthesis)?;
        self.get_name()?;
        self.mark(Mark::OpenParenthesis)?;
        self.number(u64::from(entry))?;
        self.mark(Mark::CloseParenthesis)?;
        self.mark(Mark::CloseParenthesis)
    }

    /// Writes `$dl_use(k);` of an entry.
    pub fn used(&mut self, entry: u32) -> Result<(), AllocError>
        ensures { OnOk result (self.new ≡ all_written self.old (printed.stmt (plain.Used entry))) }
    {
        self.use_name()?;
        self.mark(Mark::OpenParenthesis)?;
        self.number(u64::from(entry))?;
        self.mark(Mark::CloseParenthesis)?;
        self.mark(Mark::Semicolon)
    }

    /// Writes a `continue` or a `break` (ES3 12.7 and 12.8).
    pub fn jump(&mut self, word: Word, label: &Option<Units>) -> Result<(), AllocError>
        ensures { OnOk result (self.new ≡ all_written self.old
            (kind.Word word ∷ (printed.maybe_name label.now ++ (kind.Mark mark.Semicolon ∷ [])))) }
    {
        self.word(word)?;
        self.maybe_name(label)?;
        self.mark(Mark::Semicolon)
    }

    /// Writes a name where there is one.
    pub fn maybe_name(&mut self, name: &Option<Units>) -> Result<(), AllocError>
        ensures { OnOk result (self.new ≡ all_written self.old (printed.maybe_name name.now)) }
    {
        match name {
            None => Ok(()),
            Some(name) => self.name(name),
        }
    }

    /// Writes names with commas between.
    fn names(&mut self, names: &Names) -> Result<(), AllocError>
        ensures { OnOk result (self.new ≡ all_written self.old (printed.names names.now)) }
    {
        let mut is_behind = false;
        for name in names.items() {
            self.comma(is_behind)?;
            self.name(name)?;
            is_behind = true;
        }
        Ok(())
    }

    /// Writes the formals of a function in their parentheses (ES3 section 13).
    #[tactic(auto, using(crate::proofs::Writing::all_written_append))]
    pub fn formals(&mut self, names: &Names) -> Result<(), AllocError>
        ensures { OnOk result
            (self.new ≡ all_written self.old (printed.enclosed (printed.names names.now))) }
    {
        self.mark(Mark::OpenParenthesis)?;
        self.names(names)?;
        self.mark(Mark::CloseParenthesis)
    }

    /// Writes the comma before an item, where one is before it.
    pub fn comma(&mut self, is_behind: bool) -> Result<(), AllocError>
        ensures { OnOk result (self.new ≡ all_written self.old (parts.comma is_behind)) }
    {
        if is_behind {
            self.mark(Mark::Comma)
        } else {
            Ok(())
        }
    }
}

/// Adds a space where it is wanted.
fn push_space(text: &mut Text, wanted: bool) -> Result<(), AllocError>
    ensures { OnOk result (text.new ≡ text.old ++ space wanted) }
{
    if wanted { text.push(b' ') } else { Ok(()) }
}

/// Adds the shown string of the units.
fn push_quoted(text: &mut Text, units: &Units) -> Result<(), AllocError>
    ensures { OnOk result (text.new ≡ text.old ++ encode_utf8_all (quoted units.now)) }
{
    text.push(b'"')?;
    for unit in units.items() {
        push_quoted_unit(text, *unit)?;
    }
    text.push(b'"')
}

/// Whether every unit is an ASCII character.
fn is_ascii(units: &[u16]) -> bool
    ensures { result ≡ list_all (λ unit. nat_lt unit 128) units.now }
{
    units.iter().all(|unit| *unit < 128)
}
