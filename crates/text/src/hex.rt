// Bytes in hexadecimal.
ghost use Rattle.std.specs.Prelude.{◌≡◌, ◌<◌, T};
ghost use Rattle.text.specs.Appending.{Appends};
ghost use Rattle.text.specs.Classes.{hex_digit};
ghost use Rattle.text.specs.Hexadecimal.{digit as lower_digit, worth, written, Reads, ReadingUndoesWriting};
ghost use Rattle.text.specs.declared.hex.HexFault.TheVariants.{Memory};

use crate::class::Class;
use std::alloc::AllocError;

#[derive(Clone, Copy, PartialEq, Eq, Debug)]
pub enum HexFault {
    // The first character that is no lower-case digit; or the end of the text, where a digit is missing.
    Wrong { place: usize },
    // There is no memory for the bytes.
    Memory,
}

impl From<AllocError> for HexFault {
    ghost from_gives = { λ _ r. r ≡ Memory };

    fn from(_e: AllocError) -> HexFault {
        HexFault::Memory
    }
}

// Stays a test of its own, as `worth_of` does: `char::from_digit` answers an `Option` of a `char`, and `to_digit`
// reads upper case too.
fn digit_of(number: u8) -> u8
    requires { number < 16 }
    ensures { result ≡ lower_digit number }
{
    if number < 10 {
        b'0' + number
    } else {
        b'a' + (number - 10)
    }
}

fn worth_of(digit: u8) -> u8
    requires { T (hex_digit digit) }
    ensures { (result ≡ worth digit) × (result < 16) }
{
    if digit <= b'9' {
        digit - b'0'
    } else {
        digit - b'a' + 10
    }
}

// Adds the bytes that the text stands for to the end of `bytes`.
pub fn read(text: &[u8], bytes: &mut Vec<u8>) -> Result<(), HexFault>
    ensures { Reads text.now bytes.old bytes.new result }
{
    let place = Class::Hexadecimal.run(text);
    let (pairs, odd) = text.as_chunks::<2>();
    if place < text.len() || !odd.is_empty() {
        return Err(HexFault::Wrong { place });
    }
    bytes.reserve(pairs.len())?;
    for [high, low] in pairs {
        bytes.push_reserved(worth_of(*high) * 16 + worth_of(*low));
    }
    Ok(())
}

// Adds the written form of the bytes to the end of `text`.
pub fn write(bytes: &[u8], text: &mut Vec<u8>) -> Result<(), AllocError>
    ensures { Appends (written bytes.now) text.old text.new result }
{
    text.reserve(bytes.len() * 2)?;
    for byte in bytes {
        text.push_reserved(digit_of(*byte / 16));
        text.push_reserved(digit_of(*byte % 16));
    }
    Ok(())
}

// Reading undoes writing, and reads nothing else: the law of the two, for every text and all bytes.
pub fn reading_undoes_writing()
    ensures { ReadingUndoesWriting }
{}
