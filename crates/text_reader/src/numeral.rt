ghost use Rattle.std.specs.Prelude.{◌≡◌};
ghost use Rattle.std.specs.List.{AllPass};
ghost use Rattle.text_reader.specs.Reader as reader;

/// Whether the byte is a decimal digit.
pub fn is_digit(byte: u8) -> bool
    ensures { result ≡ reader.is_digit byte }
{
    byte >= b'0' && byte <= b'9'
}

/// The number that is written by these digits, if it is below 2^32 and no zero stands in front of
/// others.
pub fn number_of(digits: &[u8]) -> Option<u32>
    requires { AllPass reader.is_digit digits.now }
    ensures { result ≡ reader.number_of digits.now }
{
    if digits.is_empty() {
        return None;
    }
    if digits[0] == b'0' && digits.len() > 1 {
        return None;
    }
    let mut value = 0u32;
    for digit in digits {
        value = value
            .checked_mul(10)?
            .checked_add(u32::from(*digit - b'0'))?;
    }
    Some(value)
}
