// The text of scripts and reports, for the bench program and the library under it. It knows nothing of
// what a script says, only how bytes, numbers and lines are written.
//
//   class    kinds of characters
//   hex      bytes as pairs of lower-case hexadecimal digits, written and read
//   decimal  numbers in decimal digits, written, and read up to a largest one
//   words    the words of a line, with its comment cut off
//   pieces   a line put together from texts, numbers and bytes
//
// Each byte string and each number has one written form, and a reader accepts that form alone. What is
// read otherwise is refused with its place.
//
// Stays on bytes, and no `str`: all that is read is ASCII, and a place in a word is a number of bytes.
#![tactic(auto)]

pub mod class;
pub mod decimal;
pub mod hex;
pub mod pieces;
pub mod words;

#[cfg(test)]
mod tests {
    use crate::decimal::NumberFault;
    use crate::hex::HexFault;
    use crate::words::Words;
    use crate::{decimal, hex};
    use std::test::Fail;

    #[test]
    fn hexadecimal_is_pairs_of_lower_case_digits(rt: HostRuntime) -> Result<(), Fail> {
        let mut bytes = Vec::new(rt.alloc());
        hex::read(b"00ff1a", &mut bytes)?;
        assert!(rt; bytes.len() == 3);
        assert_eq!(rt; bytes[1], 255);
        assert_eq!(rt; bytes[2], 26);
        assert_eq!(rt;
            hex::read(b"0aF0", &mut bytes),
            Err(HexFault::Wrong { place: 2 })
        );
        assert_eq!(rt;
            hex::read(b"abc", &mut bytes),
            Err(HexFault::Wrong { place: 3 })
        );
        Ok(())
    }

    #[test]
    fn a_number_has_one_form(rt: HostRuntime) {
        assert_eq!(rt; decimal::read(b"204", 204), Ok(204));
        assert_eq!(rt; decimal::read(b"204", 203), Err(NumberFault::TooLarge));
        assert_eq!(rt; decimal::read(b"0204", 999), Err(NumberFault::LeadingZero));
        assert_eq!(rt;
            decimal::read(b"2o4", 999),
            Err(NumberFault::NoDigit { place: 1 })
        );
    }

    #[test]
    fn a_comment_ends_the_words(rt: HostRuntime) {
        let mut words = Words::of(b"  digest\t-# empty");
        assert!(rt; words.take() == Some(b"digest"));
        assert!(rt; words.take() == Some(b"-"));
        assert!(rt; words.take().is_none());
    }
}
