ghost use Rattle.std.specs.Prelude.{◌≡◌, ◌≤◌, ◌<◌, length, IsTrue};
ghost use Rattle.std.specs.List.{list_any};
ghost use Rattle.dl_text.specs.Place as place;
ghost use Rattle.js_lexer.specs.Characters as spec;

pub fn is_white_space(c: char) -> bool
    ensures { result ≡ spec.is_white_space c }
{
    matches!(
        c,
        '\t' | '\u{b}' | '\u{c}' | ' ' | '\u{a0}' | '\u{1680}' | '\u{2000}'..='\u{200a}'
            | '\u{202f}'
            | '\u{205f}'
            | '\u{3000}'
    )
}

pub fn is_line_terminator(c: char) -> bool
    ensures { result ≡ place.is_line_terminator c }
{
    matches!(c, '\n' | '\r' | '\u{2028}' | '\u{2029}')
}

pub fn begins_name(c: char) -> bool
    ensures { result ≡ spec.begins_name c }
{
    c == '$' || c == '_' || unicode_ident::is_xid_start(c)
}

pub fn continues_name(c: char) -> bool
    ensures { result ≡ spec.continues_name c }
{
    c == '$' || c == '_' || unicode_ident::is_xid_continue(c)
}

pub fn is_digit(c: char) -> bool
    ensures { result ≡ spec.is_digit c }
{
    matches!(c, '0'..='9')
}

pub fn is_hex_digit(c: char) -> bool
    ensures { result ≡ spec.is_hex_digit c }
{
    c.to_digit(16).is_some()
}

/// Whether the text begins with a digit.
pub fn begins_with_digit(text: &[char]) -> bool
    ensures { result ≡ spec.first_is spec.is_digit text.now }
{
    match text {
        [c, ..] => is_digit(*c),
        [] => false,
    }
}

/// Whether the text begins with the character.
pub fn is_at(c: char, text: &[char]) -> bool
    ensures value { result ≡ spec.is_at c text.now }
    ensures within { IsTrue result → 0 < length text.now }
{
    match text {
        [first, ..] => *first == c,
        [] => false,
    }
}

/// Whether some character is a line terminator.
pub fn has_line_terminator(text: &[char]) -> bool
    ensures { result ≡ list_any place.is_line_terminator text.now }
{
    text.iter().any(|c| is_line_terminator(*c))
}

/// How many characters there are before the first line terminator.
pub fn line_length(text: &[char]) -> usize
    ensures value { result ≡ spec.run spec.in_line text.now }
    ensures within { result ≤ length text.now }
{
    for (i, c) in text.iter().enumerate() {
        if is_line_terminator(*c) {
            return i;
        }
    }
    text.len()
}

/// How many characters at the front go on with a name.
pub fn name_length(text: &[char]) -> usize
    ensures value { result ≡ spec.run spec.continues_name text.now }
    ensures within { result ≤ length text.now }
{
    for (i, c) in text.iter().enumerate() {
        if !continues_name(*c) {
            return i;
        }
    }
    text.len()
}

/// How many characters at the front are digits.
pub fn digits_length(text: &[char]) -> usize
    ensures value { result ≡ spec.run spec.is_digit text.now }
    ensures within { result ≤ length text.now }
{
    for (i, c) in text.iter().enumerate() {
        if !is_digit(*c) {
            return i;
        }
    }
    text.len()
}

/// How many characters at the front are hexadecimal digits.
pub fn hex_digits_length(text: &[char]) -> usize
    ensures value { result ≡ spec.run spec.is_hex_digit text.now }
    ensures within { result ≤ length text.now }
{
    for (i, c) in text.iter().enumerate() {
        if !is_hex_digit(*c) {
            return i;
        }
    }
    text.len()
}

/// Whether the text begins with the spelling, which is ASCII.
#[tactic(auto, using(crate::proofs::Fronts::beginning))]
pub fn begins(spelling: &str, text: &[char]) -> bool
    ensures { result ≡ spec.begins spelling.now text.now }
{
    let bytes = spelling.as_bytes();
    for (i, byte) in bytes.iter().enumerate() {
        match text.get(i) {
            Some(c) => {
                if u32::from(*byte) != u32::from(*c) {
                    return false;
                }
            }
            None => return false,
        }
    }
    true
}

/// Whether the units begin with the spelling, which is ASCII.
#[tactic(auto, using(crate::proofs::Fronts::beginning))]
pub fn units_begin(spelling: &str, units: &[u16]) -> bool
    ensures { result ≡ spec.begins spelling.now units.now }
{
    let bytes = spelling.as_bytes();
    for (i, byte) in bytes.iter().enumerate() {
        match units.get(i) {
            Some(unit) => {
                if u16::from(*byte) != *unit {
                    return false;
                }
            }
            None => return false,
        }
    }
    true
}
