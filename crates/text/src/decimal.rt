// Numbers in decimal.
ghost use Rattle.std.specs.Prelude.{◌≡◌, ◌≤◌, length, drop, decimal};
ghost use Rattle.std.specs.List.{prefix_len};
ghost use Rattle.text.specs.Appending.{Appends};
ghost use Rattle.text.specs.Classes.{decimal_digit};
ghost use Rattle.text.specs.Decimals.{number, within, numeral, NumeralsAreDecimals};

use crate::class::Class;
use std::alloc::AllocError;

#[derive(Clone, Copy, PartialEq, Eq, Debug)]
pub enum NumberFault {
    // There is no digit at all.
    Empty,
    // The first character that is no digit.
    NoDigit { place: usize },
    // A 0 stands in front of other digits.
    LeadingZero,
    // The number is above the largest one that is wanted.
    TooLarge,
}

// The number that the text writes, where it is not above `most`.
pub fn read(text: &[u8], most: u64) -> Result<u64, NumberFault>
    ensures { result ≡ numeral most text.now }
{
    if text.is_empty() {
        return Err(NumberFault::Empty);
    }
    let place = Class::Decimal.run(text);
    if place < text.len() {
        return Err(NumberFault::NoDigit { place });
    }
    if text.len() > 1 && text[0] == b'0' {
        return Err(NumberFault::LeadingZero);
    }
    value(text, most)
}

// The number that digits write.
fn value(digits: &[u8], most: u64) -> Result<u64, NumberFault>
    requires { prefix_len decimal_digit digits.now ≡ length digits.now }
    ensures { result ≡ within most (number digits.now) }
{
    let mut so_far = 0u64;
    for digit in digits {
        let next = u128::from(so_far) * 10 + u128::from(*digit - b'0');
        if next > u128::from(most) {
            return Err(NumberFault::TooLarge);
        }
        so_far = next as u64;
    }
    Ok(so_far)
}

// The most digits that a number of 64 bits has.
const DIGITS: usize = 20;

// Spells the number at the end of `digits`, and answers where it starts.
fn spell(number: u64, digits: &mut [u8; DIGITS]) -> usize
    ensures within { result ≤ 20 }
    ensures digits { drop result digits.new ≡ decimal number }
{
    let mut rest = number;
    for start in (0..DIGITS).rev() {
        digits[start] = b'0' + (rest % 10) as u8;
        rest /= 10;
        if rest == 0 {
            return start;
        }
    }
    unreachable!()
}

// Adds the number's digits to the end of `text`.
// Stays a spelling of its own: `write!` says what it wrote only where it succeeds, and this call says that the text
// is as it was where memory ends.
pub fn write(number: u64, text: &mut Vec<u8>) -> Result<(), AllocError>
    ensures { Appends (decimal number) text.old text.new result }
{
    let mut digits = [0; DIGITS];
    let start = spell(number, &mut digits);
    text.extend_from_slice(&digits[start..])
}

// A number is read from its decimal form and from nothing else: the law of `read`, for every text.
pub fn numerals_are_decimals()
    ensures { NumeralsAreDecimals }
{}
