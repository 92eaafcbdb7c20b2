use super::*;
use dl_text::{Place, Units, quote_units, units_of};
use std::alloc::Global;
use std::process::Abort;
use std::test::Fail;

/// The units as a shown string.
fn push_shown(alloc: Global, text: &mut String, units: &Units) -> Result<(), Fail> {
    let shown = quote_units(alloc, units)?;
    for byte in shown.items() {
        text.push(char::from(*byte))?;
    }
    Ok(())
}

/// A token: `^` behind a line terminator, then what it is, and where it stands.
fn push_token(alloc: Global, text: &mut String, token: &Token) -> Result<(), Fail> {
    if token.newline {
        text.push('^')?;
    }
    match &token.kind {
        TokenKind::Word(word) => text.push_str(word.spelling())?,
        TokenKind::Mark(mark) => text.push_str(mark.spelling())?,
        TokenKind::Number(value) => write!(text, "{value}")?,
        TokenKind::Name(units) => {
            text.push_str("name")?;
            push_shown(alloc, text, units)?;
        }
        TokenKind::Str(units) => push_shown(alloc, text, units)?,
        TokenKind::End => text.push_str("end")?,
    }
    Ok(())
}

/// What the tokens are, with a space behind each.
fn shown(rt: &impl Abort, alloc: Global, text: &str) -> Result<String, Fail> {
    assert!(rt; text.len() < 1000);
    let mut shown = String::new(alloc);
    for token in &lex(alloc, text)? {
        push_token(alloc, &mut shown, token)?;
        shown.push(' ')?;
    }
    Ok(shown)
}

/// Where the tokens stand: their first byte, the byte behind them, line and column.
fn spans(rt: &impl Abort, alloc: Global, text: &str) -> Result<String, Fail> {
    assert!(rt; text.len() < 1000);
    let mut spans = String::new(alloc);
    for token in &lex(alloc, text)? {
        let place = token.place;
        let start = token.start;
        let end = token.end;
        let line = place.line;
        let column = place.column;
        write!(spans, "{start}-{end} {line}:{column} ")?;
    }
    Ok(spans)
}

#[test]
fn each_fault_is_told_at_its_place(rt: HostRuntime) -> Result<(), Fail> {
    let alloc = rt.alloc();
    let faults = [
        ("01", LexKind::Octal, 1, 1),
        ("a\n 07", LexKind::Octal, 2, 2),
        ("00", LexKind::Octal, 1, 1),
        ("1.5", LexKind::Fraction, 1, 1),
        ("0.", LexKind::Fraction, 1, 1),
        ("x.5", LexKind::Fraction, 1, 2),
        ("0x1.5", LexKind::Fraction, 1, 4),
        ("9007199254740992.", LexKind::Fraction, 1, 1),
        ("1e5", LexKind::Exponent, 1, 1),
        ("0E", LexKind::Exponent, 1, 1),
        ("3in", LexKind::NumberTail, 1, 1),
        ("0x", LexKind::NumberTail, 1, 1),
        ("0xg", LexKind::NumberTail, 1, 1),
        ("0x1g", LexKind::NumberTail, 1, 1),
        (" 1\\u0061", LexKind::NumberTail, 1, 2),
        ("1\u{e9}", LexKind::NumberTail, 1, 1),
        ("9007199254740992", LexKind::WideNumber, 1, 1),
        ("0x20000000000000", LexKind::WideNumber, 1, 1),
        ("x=\"ab", LexKind::OpenString, 1, 3),
        ("'a\nb'", LexKind::OpenString, 1, 1),
        ("'a\\\nb'", LexKind::OpenString, 1, 1),
        ("'a\\", LexKind::OpenString, 1, 1),
        ("'\u{2028}'", LexKind::OpenString, 1, 1),
        ("'\\1'", LexKind::BadEscape, 1, 2),
        ("'\\08'", LexKind::BadEscape, 1, 2),
        ("'a\\x4", LexKind::BadEscape, 1, 3),
        ("'\\x4\n'", LexKind::BadEscape, 1, 2),
        ("'\\u00g0'", LexKind::BadEscape, 1, 2),
        ("'a' '\\1", LexKind::BadEscape, 1, 6),
        ("/* *", LexKind::OpenComment, 1, 1),
        ("a /*/", LexKind::OpenComment, 1, 3),
        ("a\\u0062", LexKind::NameEscape, 1, 2),
        ("\\", LexKind::NameEscape, 1, 1),
        ("#", LexKind::BadCharacter, 1, 1),
        ("a\n\n  @", LexKind::BadCharacter, 3, 3),
        ("\u{feff}\u{feff}", LexKind::BadCharacter, 1, 1),
        ("\u{e9}\u{200b}", LexKind::BadCharacter, 1, 2),
    ];
    for (text, kind, line, column) in faults {
        assert!(rt; text.len() < 1000);
        match lex(alloc, text) {
            Ok(_) => assert!(rt; false, "{text:?} has tokens"),
            Err(error) => {
                let fault = LexError::Lexical(Place { line, column }, kind);
                assert_eq!(rt; error, fault, "{text:?}");
            }
        }
    }
    Ok(())
}

#[test]
fn every_word_and_mark_is_read(rt: HostRuntime) -> Result<(), Fail> {
    let alloc = rt.alloc();
    let words =
        "break case catch continue default delete do else finally for function if in instanceof new return switch this throw try typeof var void while with null true false abstract boolean byte char class const debugger double enum export extends final float goto implements import int interface long native package private protected public short static super synchronized throws transient volatile";
    assert_eq!(rt;
        shown(&rt, alloc, words)?.as_str(),
        "break case catch continue default delete do else finally for function if in instanceof new return switch this throw try typeof var void while with null true false abstract boolean byte char class const debugger double enum export extends final float goto implements import int interface long native package private protected public short static super synchronized throws transient volatile end "
    );
    let marks =
        "{ } ( ) [ ] . ; , < > <= >= == != === !== + - * / % ++ -- << >> >>> & | ^ ! ~ && || ? : = += -= *= /= %= <<= >>= >>>= &= |= ^=";
    assert_eq!(rt;
        shown(&rt, alloc, marks)?.as_str(),
        "{ } ( ) [ ] . ; , < > <= >= == != === !== + - * / % ++ -- << >> >>> & | ^ ! ~ && || ? : = += -= *= /= %= <<= >>= >>>= &= |= ^= end "
    );
    let names = "breaks Break i nulL let $ _ a1 get";
    let shown_names =
        "name\"breaks\" name\"Break\" name\"i\" name\"nulL\" name\"let\" name\"$\" name\"_\" name\"a1\" name\"get\" end ";
    assert_eq!(rt; shown(&rt, alloc, names)?.as_str(), shown_names);
    Ok(())
}

#[test]
fn the_longest_mark_is_taken(rt: HostRuntime) -> Result<(), Fail> {
    let alloc = rt.alloc();
    let cases = [
        (">>>=", ">>>= end "),
        (">>>", ">>> end "),
        (">>=", ">>= end "),
        (">>", ">> end "),
        (">=", ">= end "),
        (">>>>==", ">>> >= = end "),
        ("<<<=", "<< <= end "),
        ("====", "=== = end "),
        ("!==!=!", "!== != ! end "),
        ("+++=", "++ += end "),
        ("&&&=|||=", "&& &= || |= end "),
        ("/=/ /", "/= / / end "),
        ("..", ". . end "),
    ];
    for (text, tokens) in cases {
        assert_eq!(rt; shown(&rt, alloc, text)?.as_str(), tokens, "{text:?}");
    }
    Ok(())
}

#[test]
fn lines_end_in_comments_too(rt: HostRuntime) -> Result<(), Fail> {
    let alloc = rt.alloc();
    let cases = [
        (
            "a/*\r\n*/b",
            "name\"a\" ^name\"b\" end ",
            "0-1 1:1 7-8 2:3 8-8 2:4 ",
        ),
        ("/*\u{2028}*/b", "^name\"b\" end ", "7-8 2:3 8-8 2:4 "),
        ("// x\u{2029}y//", "^name\"y\" end ", "7-8 2:1 10-10 2:4 "),
        (
            "a/**/b",
            "name\"a\" name\"b\" end ",
            "0-1 1:1 5-6 1:6 6-6 1:7 ",
        ),
        (
            "1\r\n2\r3\n\r4\n",
            "1 ^2 ^3 ^4 ^end ",
            "0-1 1:1 3-4 2:1 5-6 3:1 8-9 5:1 10-10 6:1 ",
        ),
        (
            "\u{feff}a\u{a0}'\u{e9}' b",
            "name\"a\" \"\\u00e9\" name\"b\" end ",
            "3-4 1:1 6-10 1:3 11-12 1:7 12-12 1:8 ",
        ),
        ("", "end ", "0-0 1:1 "),
    ];
    for (text, tokens, places) in cases {
        assert_eq!(rt; shown(&rt, alloc, text)?.as_str(), tokens, "{text:?}");
        assert_eq!(rt; spans(&rt, alloc, text)?.as_str(), places, "{text:?}");
    }
    Ok(())
}

#[test]
fn values_are_read(rt: HostRuntime) -> Result<(), Fail> {
    let alloc = rt.alloc();
    let cases = [
        ("9007199254740991", "9007199254740991 end "),
        ("0x1FFFFFFFFFFFFF", "9007199254740991 end "),
        ("0 10 0x1F 0Xa", "0 10 31 10 end "),
        ("0x1e.a", "30 . name\"a\" end "),
        (
            "'\\b\\t\\n\\v\\f\\r\\\"\\'\\\\\\0\\q'",
            "\"\\u0008\\u0009\\u000a\\u000b\\u000c\\u000d\\\"'\\\\\\u0000q\" end ",
        ),
        ("\"\\x41\\u0042\\uD83D'\"", "\"AB\\ud83d'\" end "),
        ("'\u{1f600}'", "\"\\ud83d\\ude00\" end "),
        (
            "\u{65e5}\u{672c}\u{10400} \u{e9}\u{301}",
            "name\"\\u65e5\\u672c\\ud801\\udc00\" name\"\\u00e9\\u0301\" end ",
        ),
    ];
    for (text, tokens) in cases {
        assert_eq!(rt; shown(&rt, alloc, text)?.as_str(), tokens, "{text:?}");
    }
    Ok(())
}

#[test]
fn names_are_told_from_other_units(rt: HostRuntime) -> Result<(), Fail> {
    let alloc = rt.alloc();
    let cases = [
        ("a", true),
        ("$dl_rk1", true),
        ("\u{10400}\u{e9}", true),
        ("evals", true),
        ("", false),
        ("1a", false),
        ("a b", false),
        ("a-", false),
        ("with", false),
        ("null", false),
        ("int", false),
        ("\u{1f600}", false),
    ];
    for (text, answer) in cases {
        let units = units_of(alloc, text)?;
        assert_eq!(rt; is_name(&units), answer, "{text:?}");
    }
    let mut lone = units_of(alloc, "a")?;
    lone.push(0xd801)?;
    assert!(rt; !is_name(&lone));
    Ok(())
}
