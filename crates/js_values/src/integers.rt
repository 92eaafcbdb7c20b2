ghost use Rattle.std.specs.Prelude.{◌≡◌, ◌<◌, ◌^◌};
ghost use Rattle.js_values.specs.Integers as spec;

use crate::number::Num;

const MODULUS: i64 = 1 << 32;

/// The number modulo 2^32.
fn modulo_32_bits(value: i64) -> u32
    ensures { result ≡ spec.modulo_32_bits value }
{
    value.rem_euclid(MODULUS) as u32
}

/// The signed number that differs from it by a multiple of 2^32.
fn signed_32_bits(value: u32) -> i32
    ensures { result ≡ spec.signed_32_bits value }
{
    if value < 1 << 31 {
        value as i32
    } else {
        (i64::from(value) - MODULUS) as i32
    }
}

/// ToUint32 (ES3 9.6). It takes no memory.
pub fn to_uint32(a: Num) -> u32
    ensures { result ≡ spec.uint32_of a }
{
    match a {
        Num::NaN => 0,
        Num::Whole(a) => modulo_32_bits(a.get()),
    }
}

/// ToInt32 (ES3 9.5). It takes no memory.
pub fn to_int32(a: Num) -> i32
    ensures { result ≡ spec.int32_of a }
{
    signed_32_bits(to_uint32(a))
}

/// How far a shift by this number goes.
fn shift_count(b: Num) -> u32
    ensures value { result ≡ spec.shift_count b }
    ensures most { result < 32 }
{
    to_uint32(b) % 32
}

/// The number shifted to the left (ES3 11.7.1). It takes no memory.
pub fn shift_left(a: Num, b: Num) -> Num
    ensures { result ≡ spec.shifted_left a b }
{
    Num::from(signed_32_bits(to_uint32(a) << shift_count(b)))
}

/// The number shifted to the right, with its sign (ES3 11.7.2). It takes no memory.
pub fn shift_right(a: Num, b: Num) -> Num
    ensures { result ≡ spec.shifted_right a b }
{
    Num::from(to_int32(a) >> shift_count(b))
}

/// The number shifted to the right, without a sign (ES3 11.7.3). It takes no memory.
pub fn shift_right_unsigned(a: Num, b: Num) -> Num
    ensures { result ≡ spec.shifted_right_unsigned a b }
{
    Num::from(to_uint32(a) >> shift_count(b))
}
