use super::*;
use dl_text::{TryCopy, Units, units_of};
use std::alloc::{AllocError, Global};
use std::test::Fail;

/// 2^53 - 1.
const TOP: i64 = 9_007_199_254_740_991;

/// The operations of two numbers whose answer is a number.
#[derive(Clone, Copy, Debug)]
enum Operation {
    Add,
    Sub,
    Mul,
    Div,
    Rem,
    ShiftLeft,
    ShiftRight,
    ShiftRightUnsigned,
}

fn answer(operation: Operation, a: Num, b: Num) -> Result<Num, Reason> {
    match operation {
        Operation::Add => add(a, b),
        Operation::Sub => sub(a, b),
        Operation::Mul => mul(a, b),
        Operation::Div => div(a, b),
        Operation::Rem => Ok(rem(a, b)),
        Operation::ShiftLeft => Ok(shift_left(a, b)),
        Operation::ShiftRight => Ok(shift_right(a, b)),
        Operation::ShiftRightUnsigned => Ok(shift_right_unsigned(a, b)),
    }
}

/// The whole number, or NaN for a wider one.
fn whole(value: i64) -> Num {
    Num::whole(value).unwrap_or(Num::NaN)
}

/// What is to come, as a whole number.
fn wanted(value: Result<i64, Reason>) -> Result<Num, Reason> {
    match value {
        Ok(value) => Ok(whole(value)),
        Err(reason) => Err(reason),
    }
}

#[test]
fn operations_at_their_edges(rt: HostRuntime) {
    let cases = [
        (Operation::Add, TOP - 1, 1, Ok(TOP)),
        (Operation::Add, TOP, 1, Err(Reason::TooLarge)),
        (Operation::Add, -TOP, -1, Err(Reason::TooLarge)),
        (Operation::Sub, 1 - TOP, 1, Ok(-TOP)),
        (Operation::Sub, -TOP, 1, Err(Reason::TooLarge)),
        (Operation::Sub, TOP, -1, Err(Reason::TooLarge)),
        (Operation::Mul, TOP, -1, Ok(-TOP)),
        (
            Operation::Mul,
            94_906_267,
            94_906_267,
            Err(Reason::TooLarge),
        ),
        (
            Operation::Mul,
            94_906_265,
            94_906_265,
            Ok(9_007_199_136_250_225),
        ),
        (Operation::Mul, TOP, TOP, Err(Reason::TooLarge)),
        (Operation::Mul, -TOP, TOP, Err(Reason::TooLarge)),
        (Operation::Div, -6, 3, Ok(-2)),
        (Operation::Div, TOP, -1, Ok(-TOP)),
        (Operation::Div, 7, 2, Err(Reason::Fraction)),
        (Operation::Div, 7, 0, Err(Reason::Infinite)),
        (Operation::Rem, -7, 4, Ok(-3)),
        (Operation::Rem, 7, -4, Ok(3)),
        (Operation::Rem, -TOP, 2, Ok(-1)),
        (Operation::ShiftLeft, 1, 31, Ok(-2_147_483_648)),
        (Operation::ShiftLeft, 1, 32, Ok(1)),
        (Operation::ShiftLeft, 4_294_967_295, 4, Ok(-16)),
        (Operation::ShiftRight, 5, 33, Ok(2)),
        (Operation::ShiftRight, -5, 1, Ok(-3)),
        (Operation::ShiftRight, TOP, 0, Ok(-1)),
        (Operation::ShiftRightUnsigned, -1, 0, Ok(4_294_967_295)),
        (Operation::ShiftRightUnsigned, -5, 1, Ok(2_147_483_645)),
        (Operation::ShiftRightUnsigned, -TOP, 0, Ok(1)),
    ];
    for (operation, a, b, value) in cases {
        assert_eq!(rt; answer(operation, whole(a), whole(b)), wanted(value));
    }
    assert_eq!(rt; rem(whole(7), whole(0)), Num::NaN);
    assert_eq!(rt; div(whole(0), whole(0)), Ok(Num::NaN));
    assert_eq!(rt; neg(whole(TOP)), whole(-TOP));
    assert_eq!(rt; less(whole(-1), whole(0)), Some(true));
    assert_eq!(rt; less(whole(0), Num::NaN), None);
    assert_eq!(rt; to_int32(whole(-TOP)), 1);
    assert_eq!(rt; to_uint32(whole(-1)), 4_294_967_295);
}

/// The number of a text.
fn read(alloc: Global, text: &str) -> Result<Result<Num, Reason>, AllocError> {
    let units = units_of(alloc, text)?;
    Ok(num_of_units(&units))
}

#[test]
fn texts_are_numbers(rt: HostRuntime) -> Result<(), Fail> {
    let alloc = rt.alloc();
    let cases = [
        ("", Ok(0)),
        (" \t12\n", Ok(12)),
        ("\u{a0}7", Ok(7)),
        ("\u{2028}-1\u{2029}", Ok(-1)),
        ("0x1F", Ok(31)),
        ("0x1fffffffffffff", Ok(TOP)),
        ("0X20000000000000", Err(Reason::TooLarge)),
        ("-9007199254740991", Ok(-TOP)),
        ("9007199254740992", Err(Reason::TooLarge)),
        ("1.5", Err(Reason::NumberText)),
        ("1e3", Err(Reason::NumberText)),
        ("Infinity", Err(Reason::NumberText)),
        ("-Infinity", Err(Reason::NumberText)),
    ];
    for (text, value) in cases {
        assert_eq!(rt; read(alloc, text)?, wanted(value));
    }
    // U+FEFF is not among the white space of scripts.
    for text in ["-0x1", "+", "1_0", "\u{ff19}", "\u{feff}7", "."] {
        assert_eq!(rt; read(alloc, text)?, Ok(Num::NaN));
    }
    let mut zeros = Units::new(alloc);
    for _ in 0..400 {
        zeros.push(0x30)?;
    }
    zeros.push(0x37)?;
    assert_eq!(rt; num_of_units(&zeros), Ok(whole(7)));
    Ok(())
}

/// Whether the units are those of the text.
fn is_text(alloc: Global, units: &Units, text: &str) -> Result<bool, AllocError> {
    let wanted = units_of(alloc, text)?;
    Ok(units.items() == wanted.items())
}

#[test]
fn numbers_have_texts(rt: HostRuntime) -> Result<(), Fail> {
    let alloc = rt.alloc();
    let cases = [
        (0, 2, "0"),
        (0, 36, "0"),
        (-255, 2, "-11111111"),
        (-255, 16, "-ff"),
        (-255, 36, "-73"),
        (
            TOP,
            2,
            "11111111111111111111111111111111111111111111111111111",
        ),
        (TOP, 10, "9007199254740991"),
        (-TOP, 16, "-1fffffffffffff"),
        (TOP, 36, "2gosa7pa2gv"),
    ];
    for (value, radix, text) in cases {
        let written = text_of_num(alloc, whole(value), radix)?;
        assert!(rt; is_text(alloc, &written, text)?);
    }
    let written = text_of_num(alloc, Num::NaN, 10)?;
    assert!(rt; is_text(alloc, &written, "NaN")?);
    Ok(())
}

/// Whether the value's text is this one.
fn has_text(alloc: Global, value: &Value, text: &str) -> Result<bool, AllocError> {
    match value {
        Value::Object(_) => Ok(false),
        _ => {
            let written = to_text(alloc, value)?;
            is_text(alloc, &written, text)
        }
    }
}

#[test]
fn values_are_converted(rt: HostRuntime) -> Result<(), Fail> {
    let alloc = rt.alloc();
    let text = Value::Str(units_of(alloc, " 12")?);
    let copy = text.copy(alloc)?;
    assert!(rt; strictly_equal(&text, &copy));
    assert!(rt; has_text(alloc, &copy, " 12")?);
    assert_eq!(rt; to_number(&text), Ok(whole(12)));
    assert!(rt; has_text(alloc, &Value::Undefined, "undefined")?);
    assert!(rt; has_text(alloc, &Value::Null, "null")?);
    assert!(rt; has_text(alloc, &Value::Bool(true), "true")?);
    assert!(rt; has_text(alloc, &Value::Bool(false), "false")?);
    assert!(rt; has_text(alloc, &Value::Num(whole(-7)), "-7")?);
    assert_eq!(rt; loosely_equal(&text, &Value::Num(whole(12))), Ok(true));
    assert_eq!(rt; loosely_equal(&Value::Null, &Value::Undefined), Ok(true));
    assert!(rt; !strictly_equal(&Value::Null, &Value::Undefined));
    assert!(rt; !strictly_equal(&Value::Num(Num::NaN), &Value::Num(Num::NaN)));
    assert!(rt; strictly_equal(&Value::Object(ObjectId(3)), &Value::Object(ObjectId(3))));
    assert!(rt; to_boolean(&text));
    assert_eq!(rt; type_of(&Value::Object(ObjectId(3)), true), "function");
    let reason = Reason::ReservedName;
    let told = format!(in alloc; "{reason}")?;
    assert_eq!(rt; told.as_str(), "ReservedName");
    Ok(())
}
