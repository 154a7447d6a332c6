// The records of a chained book, row by row in lent memory.
ghost use Rattle.std.specs.Prelude.{length};
ghost use Rattle.book.specs.Words.{Bytes};
ghost use Rattle.chained.specs.Layout.{RoomIn};

#[derive(Drop)]
pub struct Rows<'a> {
    pub memory: &'a mut [u8],
    pub capacity: u16,
    // the capacity is what fits the memory
    ghost room: { RoomIn (length memory.now) capacity },
    // it is made of bytes
    ghost bytes: { Bytes memory.now },
}

mod records;

pub use records::{HEAD, RECORD, wipe};
