ghost use Rattle.std.specs.Prelude.{◌≡◌};
ghost use Rattle.js_values.specs.Numbers as spec;

use crate::number::{Num, WholeNumber};
use crate::reason::Reason;

/// The sum (ES3 11.6.3), or `TooLarge`. It takes no memory.
pub fn add(a: Num, b: Num) -> Result<Num, Reason>
    ensures { result ≡ spec.sum_of a b }
{
    match (a.value(), b.value()) {
        (Some(a), Some(b)) => Num::whole(a + b),
        _ => Ok(Num::NaN),
    }
}

/// The difference (ES3 11.6.3), or `TooLarge`. It takes no memory.
pub fn sub(a: Num, b: Num) -> Result<Num, Reason>
    ensures { result ≡ spec.difference_of a b }
{
    match (a.value(), b.value()) {
        (Some(a), Some(b)) => Num::whole(a - b),
        _ => Ok(Num::NaN),
    }
}

/// The product (ES3 11.5.1), or `TooLarge`. It takes no memory.
pub fn mul(a: Num, b: Num) -> Result<Num, Reason>
    ensures { result ≡ spec.product_of a b }
{
    let (Some(a), Some(b)) = (a.value(), b.value()) else {
        return Ok(Num::NaN);
    };
    match a.checked_mul(b) {
        Some(product) => Num::whole(product),
        None => Err(Reason::TooLarge),
    }
}

/// The quotient (ES3 11.5.2): `Infinite` of a number other than 0 and NaN by 0, and `Fraction`
/// where it is not whole. It takes no memory.
pub fn div(a: Num, b: Num) -> Result<Num, Reason>
    ensures { result ≡ spec.quotient_of a b }
{
    let (Some(a), Some(b)) = (a.value(), b.value()) else {
        return Ok(Num::NaN);
    };
    if b == 0 {
        return if a == 0 {
            Ok(Num::NaN)
        } else {
            Err(Reason::Infinite)
        };
    }
    if a % b == 0 {
        Ok(Num::Whole(WholeNumber::new(a / b)))
    } else {
        Err(Reason::Fraction)
    }
}

/// The remainder (ES3 11.5.3), with the dividend's sign. It takes no memory.
pub fn rem(a: Num, b: Num) -> Num
    ensures { result ≡ spec.remainder_of a b }
{
    let (Some(a), Some(b)) = (a.value(), b.value()) else {
        return Num::NaN;
    };
    if b == 0 {
        Num::NaN
    } else {
        Num::Whole(WholeNumber::new(a % b))
    }
}

/// The negation (ES3 11.4.7). It takes no memory.
pub fn neg(a: Num) -> Num
    ensures { result ≡ spec.negation_of a }
{
    match a {
        Num::NaN => Num::NaN,
        Num::Whole(a) => Num::Whole(WholeNumber::new(-a.get())),
    }
}

/// Whether the first is less (ES3 11.8.5): None where one of the two is NaN. It takes no memory.
pub fn less(a: Num, b: Num) -> Option<bool>
    ensures { result ≡ spec.less_of a b }
{
    match (a.value(), b.value()) {
        (Some(a), Some(b)) => Some(a < b),
        _ => None,
    }
}
