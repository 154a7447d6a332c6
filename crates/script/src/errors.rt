// What is wrong with a line.
ghost use Rattle.std.specs.Prelude.{◌≡◌};
ghost use Rattle.script.specs.declared.errors.LineFault.TheVariants.{Memory};

use std::alloc::AllocError;
use std::fmt;

// Words count from 1, and a place is how many characters of the word come before it.
#[derive(Clone, Copy, PartialEq, Eq, Debug)]
pub enum LineFault {
    // no command of this name
    UnknownCommand { word: usize },
    // a command, or a word that it needs, is not there
    MissingWord { word: usize },
    // a word after all that the command needs
    ExtraWord { word: usize },
    // what stands before `=` is no name
    BadName { word: usize },
    // a character that is no hexadecimal digit, or the end of a word where a digit is missing
    WrongDigit { word: usize, place: usize },
    // nothing is kept under the name
    UnknownName { word: usize },
    // what is kept has no token of this number
    NoToken { word: usize },
    // no number, or one that is too large
    NoNumber { word: usize },
    // no group of this name
    UnknownGroup { word: usize },
    // no kind of book of this name
    UnknownBook { word: usize },
    // a call on a book where there is none
    NoBook,
    // a batch is to be ended where none is pending
    NoBatch,
    // a batch is to be begun where one is pending
    PendingBatch,
    // a call on a station where there is none
    NoStation,
    // no memory is left for what the line says
    Memory,
}

impl From<AllocError> for LineFault {
    ghost from_gives = { λ _ r. r ≡ Memory };

    fn from(_e: AllocError) -> LineFault {
        LineFault::Memory
    }
}

impl fmt::Display for LineFault {
    fn fmt<W: fmt::Write>(&self, f: &mut fmt::Formatter<W>) -> fmt::Result {
        match *self {
            LineFault::UnknownCommand { word } => write!(f, "word {word} is no command"),
            LineFault::MissingWord { word } => write!(f, "word {word} is missing"),
            LineFault::ExtraWord { word } => write!(f, "word {word} is one too many"),
            LineFault::BadName { word } => {
                write!(
                    f,
                    "word {word} is no name: a name has letters, digits and _ only"
                )
            }
            LineFault::WrongDigit { word, place } => {
                let character = place.saturating_add(1);
                write!(
                    f,
                    "word {word}, character {character}: wanted is a digit, 0 to 9 or a to f, two for each byte"
                )
            }
            LineFault::UnknownName { word } => write!(
                f,
                "word {word}: nothing is kept under this name"
            ),
            LineFault::NoToken { word } => write!(
                f,
                "word {word}: there is no token of this number"
            ),
            LineFault::NoNumber { word } => write!(
                f,
                "word {word} is no number in decimal, or too large a one"
            ),
            LineFault::UnknownGroup { word } => write!(f, "word {word} is no group"),
            LineFault::UnknownBook { word } => write!(f, "word {word} is no kind of book"),
            LineFault::NoBook => write!(f, "there is no book"),
            LineFault::NoBatch => write!(f, "no batch is pending"),
            LineFault::PendingBatch => write!(f, "a batch is pending: finish or abandon it first"),
            LineFault::NoStation => write!(f, "there is no station"),
            LineFault::Memory => write!(f, "no memory is left"),
        }
    }
}
