//! Texts and lists that contracts see as what they hold.
//!
//! `Units` is a list of UTF-16 units, `Text` a list of bytes, `Names` a list of `Units`. The layers
//! above may know of them only the list that they are: how it is stored, that copies of `Units` and
//! of `Names` share it, and with which allocator, stays here. Lists of other items are `Items` of
//! `sqlite_items`, which `Listed` and `TryCopy` give the calls that every list has. `text_of` reads
//! bytes as UTF-8, `units_of` gives a text's units, `quote_units` shows units as a string, and a
//! `Place` is a line and a column.
#![tactic(auto)]

mod list;
mod names;
mod place;
mod quote;
mod shared;
mod text;
mod units;
mod utf;

pub use list::{Listed, TryCopy};
pub use names::Names;
pub use place::Place;
pub use quote::{push_quoted_unit, quote_units};
pub use text::Text;
pub use units::Units;
pub use utf::{TextError, text_of, units_of};

#[cfg(test)]
mod tests {
    use super::*;
    use std::alloc::{AllocError, Global};
    use std::test::Fail;

    /// The units of the names, one behind the other.
    fn spelt(alloc: Global, names: &Names) -> Result<Vec<u16>, AllocError> {
        let mut units = Vec::new(alloc);
        for name in names.items() {
            units.extend_from_slice(name.items())?;
        }
        Ok(units)
    }

    #[test]
    fn lists_keep_what_is_pushed(rt: HostRuntime) -> Result<(), Fail> {
        let alloc = rt.alloc();
        let mut name = Units::new(alloc);
        assert_eq!(rt; name.items().len(), 0);
        name.push(0xd83d)?;
        name.push(0xde00)?;
        assert_eq!(rt; name.items(), [0xd83d, 0xde00].as_slice());
        let mut text = Text::new(alloc);
        text.push(b'a')?;
        text.extend(b"bc")?;
        assert_eq!(rt; text.items(), b"abc".as_slice());
        let mut names = Names::new(alloc);
        names.push(name)?;
        assert_eq!(rt; names.items().len(), 1);
        Ok(())
    }

    #[test]
    fn copies_are_equal(rt: HostRuntime) -> Result<(), Fail> {
        let alloc = rt.alloc();
        let mut names = Names::new(alloc);
        for unit in [0x61, 0x62] {
            let mut name = Units::new(alloc);
            name.push(unit)?;
            names.push(name)?;
        }
        let copy = names.copy(alloc)?;
        let units = spelt(alloc, &copy)?;
        assert_eq!(rt; units.as_slice(), [0x61, 0x62].as_slice());
        let mut text = Text::new(alloc);
        text.push(b'x')?;
        let copy = text.copy(alloc)?;
        assert_eq!(rt; copy.items(), b"x".as_slice());
        Ok(())
    }

    #[test]
    fn owners_see_their_own_pushes(rt: HostRuntime) -> Result<(), Fail> {
        let alloc = rt.alloc();
        let mut first = units_of(alloc, "ab")?;
        let mut second = first.copy(alloc)?;
        second.push(0x63)?;
        first.push(0x64)?;
        assert_eq!(rt; first.items(), [0x61, 0x62, 0x64].as_slice());
        assert_eq!(rt; second.items(), [0x61, 0x62, 0x63].as_slice());
        let both = Units::joined(alloc, &second, &units_of(alloc, "d")?)?;
        assert_eq!(rt; both.items(), [0x61, 0x62, 0x63, 0x64].as_slice());
        Ok(())
    }

    #[test]
    fn a_copy_of_the_empty_text_is_filled(rt: HostRuntime) -> Result<(), Fail> {
        let alloc = rt.alloc();
        let empty = Units::new(alloc);
        let mut filled = empty.copy(alloc)?;
        filled.push(0x61)?;
        assert_eq!(rt; empty.items().len(), 0);
        assert_eq!(rt; filled.items(), [0x61].as_slice());
        Ok(())
    }

    /// Adds the name of these units.
    fn add_name(alloc: Global, names: &mut Names, name: &str) -> Result<(), AllocError> {
        names.push(units_of(alloc, name)?)
    }

    #[test]
    fn owners_of_names_see_their_own_pushes(rt: HostRuntime) -> Result<(), Fail> {
        let alloc = rt.alloc();
        let mut first = Names::new(alloc);
        add_name(alloc, &mut first, "a")?;
        let mut second = first.copy(alloc)?;
        add_name(alloc, &mut second, "b")?;
        add_name(alloc, &mut first, "c")?;
        let units = spelt(alloc, &first)?;
        assert_eq!(rt; units.as_slice(), [0x61, 0x63].as_slice());
        let units = spelt(alloc, &second)?;
        assert_eq!(rt; units.as_slice(), [0x61, 0x62].as_slice());
        Ok(())
    }

    #[test]
    fn strings_are_shown(rt: HostRuntime) -> Result<(), Fail> {
        let alloc = rt.alloc();
        let units = units_of(alloc, "a\"\\\n~\u{7f}\u{e9}\u{1f600}")?;
        let shown = quote_units(alloc, &units)?;
        assert_eq!(rt;
            shown.items(),
            b"\"a\\\"\\\\\\u000a~\\u007f\\u00e9\\ud83d\\ude00\"".as_slice()
        );
        Ok(())
    }

    #[test]
    fn bytes_are_read_as_utf8(rt: HostRuntime) -> Result<(), Fail> {
        let alloc = rt.alloc();
        match text_of(alloc, b"a\xc3\xa9") {
            Ok(text) => assert_eq!(rt; text.as_str(), "a\u{e9}"),
            Err(_) => assert!(rt; false),
        }
        let cases = [
            (b"a\xff".as_slice(), 1),
            (b"\xc3\xa9\xc3".as_slice(), 2),
            (b"\xed\xa0\x80".as_slice(), 0),
        ];
        for (bytes, length) in cases {
            match text_of(alloc, bytes) {
                Ok(_) => assert!(rt; false),
                Err(error) => assert_eq!(rt; error, TextError::NotUtf8(length)),
            }
        }
        Ok(())
    }
}
