// A tape over lent memory, with what holds of it at all times.
ghost use Rattle.std.specs.Prelude.{◌≤◌, length};
ghost use Rattle.book.specs.Meaning.{Apart};
ghost use Rattle.book.specs.Words.{word};
ghost use Rattle.tape.specs.Layout.{RoomIn, pairs_of, Laid};

#[derive(Drop)]
pub struct TapeBook<'a> {
    memory: &'a mut [u8],
    capacity: u16,
    // the capacity is what fits the memory
    ghost room: { RoomIn (length memory.now) capacity },
    // the size is at most the capacity
    ghost within: { word memory.now 0 ≤ capacity },
    // no pair stands in it twice
    ghost apart: { Apart (pairs_of memory.now) },
    // every byte is the one that the pairs give
    ghost laid: { Laid memory.now capacity },
}

mod methods;

pub use methods::{Tape, capacities_are_worked, image_tells_the_pairs};
