ghost use Rattle.std.specs.Prelude.{codes};
ghost use Rattle.text_reader.specs.Reader.{◌>>◌, skip, decimal, up_to};

use crate::{Cursor, ListReader, Refusal, or_none};
use sqlite_items::Items;
use std::alloc::{AllocError, Global};
use std::test::Fail;

fn is_space(byte: u8) -> bool {
    byte == b' '
}

/// The number at the front of a text, and how many bytes it leaves.
fn decimal_of(text: &[u8]) -> Result<(u32, usize), Refusal> {
    let mut left = Cursor::new(text);
    let number = left.decimal()?;
    Ok((number, left.turns() - 1))
}

#[test]
fn a_cursor_takes_what_comes(rt: HostRuntime) -> Result<(), Fail> {
    let mut text = Cursor::new(b"ab  12;");
    assert_eq!(rt; text.turns(), 8);
    assert!(rt; !text.eat(b"b"));
    assert!(rt; text.eat(b"a"));
    assert_eq!(rt; text.one(|byte| byte >= b'a'), Ok(b'b'));
    assert_eq!(rt; text.one(|byte| byte >= b'a'), Err(Refusal::NotOfForm));
    assert_eq!(rt; text.run(is_space), b"  ".as_slice());
    assert_eq!(rt; text.run(is_space), b"".as_slice());
    assert_eq!(rt; text.decimal(), Ok(12));
    assert_eq!(rt; text.decimal(), Err(Refusal::NotOfForm));
    assert_eq!(rt; text.skip(b";;"), Err(Refusal::NotOfForm));
    assert!(rt; !text.is_at_end());
    assert_eq!(rt; text.skip(b";"), Ok(()));
    assert!(rt; text.is_at_end());
    Ok(())
}

#[test]
fn decimal_numbers(rt: HostRuntime) -> Result<(), Fail> {
    assert_eq!(rt; decimal_of(b"0"), Ok((0, 0)));
    assert_eq!(rt; decimal_of(b"907 1"), Ok((907, 2)));
    assert_eq!(rt; decimal_of(b"4294967295,"), Ok((4294967295, 1)));
    let refused: [&[u8]; 6] = [b"", b"x1", b"-1", b"01", b"00", b"4294967296"];
    for text in refused {
        assert_eq!(rt; decimal_of(text), Err(Refusal::NotOfForm));
    }
    Ok(())
}

/// Numbers, each behind a space, up to a semicolon.
struct Spaced;

#[tactic(auto, unfolding(crate::specs::Reader::up_to))]
impl ListReader<u32> for Spaced {
    ghost next_item = { λ _. up_to (skip (codes ";")) (skip (codes " ") >> decimal) };

    fn next_item(&self, text: &mut Cursor<'_>) -> Result<Option<u32>, Refusal> {
        if text.eat(b";") {
            return Ok(None);
        }
        text.skip(b" ")?;
        Ok(Some(text.decimal()?))
    }
}

fn numbers(alloc: Global, text: &[u8]) -> Result<Option<Items<u32>>, AllocError> {
    or_none(Cursor::new(text).list(Items::new(alloc), &Spaced))
}

#[test]
fn lists(rt: HostRuntime) -> Result<(), Fail> {
    let alloc = rt.alloc();
    let none = numbers(alloc, b";")?.ok_or("refused")?;
    assert!(rt; none.is_empty());
    let two = numbers(alloc, b" 3 17;")?.ok_or("refused")?;
    assert_eq!(rt; two.as_slice(), [3, 17].as_slice());
    assert!(rt; numbers(alloc, b" 3 17")?.is_none());
    Ok(())
}
