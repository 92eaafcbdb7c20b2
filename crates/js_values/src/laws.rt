//! Laws over the definitions: these calls do nothing, and each says a law of numbers or values.

ghost use Rattle.js_values.specs.Laws as law;

/// The text of a whole number in a radix is read back there, and in ten as ToNumber reads it.
pub fn texts_read_back()
    ensures in_a_radix { law.TextsReadBack }
    ensures in_ten { law.DecimalsReadBack }
{}

/// What is told as a number with a point, an exponent or as `Infinity` is what the productions of
/// ES3 9.3.1 have.
pub fn fractions_are_literals()
    ensures { law.FractionsAreLiterals }
{}

/// Sums and products are the same in either order.
pub fn sums_and_products_commute()
    ensures sums { law.SumsCommute }
    ensures products { law.ProductsCommute }
{}

/// A quotient times the divisor is the dividend.
pub fn quotients_are_exact()
    ensures { law.QuotientsAreExact }
{}

/// A remainder is what the quotient, rounded towards zero, leaves, with the dividend's sign.
pub fn remainders_are_left()
    ensures { law.RemaindersAreLeft }
{}

/// ToInt32 and ToUint32 agree modulo 2^32, with each other and with the number.
pub fn integers_agree()
    ensures each_other { law.IntegersAgree }
    ensures number { law.IntegersAreModular }
    ensures fit { law.IntegersFit }
{}

/// `==` of values that are no objects, and `===`, are the same in either order.
pub fn equality_is_symmetric()
    ensures loose { law.EqualityIsSymmetric }
    ensures strict { law.StrictEqualityIsSymmetric }
{}
