// Lines made of pieces.
ghost use Rattle.text.specs.Appending.{Appends};
ghost use Rattle.text.specs.Pieces.{spelt, all_spelt};

use crate::{decimal, hex};
use std::alloc::AllocError;

// A part of a line that is written.
#[derive(Clone, Copy)]
pub enum Piece<'a> {
    Number(u64),
    Text(&'a str),
    Bytes(&'a [u8]),
}

impl Piece<'_> {
    fn write(self, line: &mut Vec<u8>) -> Result<(), AllocError>
        ensures { Appends (spelt self.entry) line.old line.new result }
    {
        match self {
            Piece::Number(number) => decimal::write(number, line),
            Piece::Text(text) => line.extend_from_slice(text.as_bytes()),
            Piece::Bytes(bytes) => hex::write(bytes, line),
        }
    }
}

// Adds all the pieces to the end of the line, or, where memory ends on the way, none.
pub fn write(pieces: &[Piece<'_>], line: &mut Vec<u8>) -> Result<(), AllocError>
    ensures { Appends (all_spelt pieces.now) line.old line.new result }
{
    let start = line.len();
    for piece in pieces {
        if let Err(full) = piece.write(line) {
            line.truncate(start);
            return Err(full);
        }
    }
    Ok(())
}
