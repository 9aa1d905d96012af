//! Decimal numbers without a sign and without a leading zero.

ghost use Rattle.std.specs.Prelude.{◌≡◌, ◌+◌, ◌-◌, ◌*◌, ◌^◌, ◌<◌};
ghost use Rattle.std.specs.Option.{SomeIff};
ghost use Rattle.std.specs.Int.{IsInRange};
ghost use Rattle.std.specs.Char.{is_ascii_digit};
ghost use Rattle.std.specs.List.{list_all};
ghost use Rattle.std.specs.Str.Parse.{AllDigits, digits_value};
ghost use Rattle.gl_lines.specs.Numbers.{is_decimal, counted_number, amount_of};

use crate::fault::LineFault;

fn are_digits(text: &[u8]) -> bool
    ensures { result ≡ list_all is_ascii_digit text.now }
{
    text.iter().all(|byte| byte.is_ascii_digit())
}

/// Whether a text is decimal digits, without a leading zero.
pub fn is_decimal(text: &[u8]) -> bool
    ensures { result ≡ is_decimal text.now }
{
    1 <= text.len() && are_digits(text) && (text[0] != b'0' || text.len() == 1)
}

fn with_digit(number: u128, digit: u8) -> Option<u128>
    requires { IsInRange 48 57 digit }
    ensures { SomeIff result (number * 10 + (digit - 48) < 2 ^ 128) (number * 10 + (digit - 48)) }
{
    number
        .checked_mul(10)?
        .checked_add(u128::from(digit - b'0'))
}

/// The number that the digits encode, if it is below 2^128.
fn digits_value(digits: &[u8]) -> Option<u128>
    requires { AllDigits 10 digits.now }
    ensures { SomeIff result (digits_value 10 digits.now < 2 ^ 128) (digits_value 10 digits.now) }
{
    let mut value = 0;
    for digit in digits {
        match with_digit(value, *digit) {
            Some(next) => value = next,
            None => return None,
        }
    }
    Some(value)
}

/// The number of a node, of a line or of something else that is counted.
pub(crate) fn counted_number(text: &[u8]) -> Result<u128, LineFault>
    ensures { result ≡ counted_number text.now }
{
    if is_decimal(text) {
        match digits_value(text) {
            Some(number) => Ok(number),
            None => Err(LineFault::NoReading),
        }
    } else {
        Err(LineFault::NoReading)
    }
}

/// An amount that is added.
pub(crate) fn amount_of(text: &[u8]) -> Result<u64, LineFault>
    ensures { result ≡ amount_of text.now }
{
    match counted_number(text) {
        Ok(number) if number <= u128::from(u64::MAX) => Ok(number as u64),
        _ => Err(LineFault::NoReading),
    }
}
