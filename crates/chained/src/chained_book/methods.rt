// The calls of a chained book.
ghost use Rattle.std.specs.Prelude.{◌≡◌, ◌<◌, [], length, Ok};
ghost use Rattle.book.specs.Meaning.{Cleared, Marked, Dropped};
ghost use Rattle.book.specs.Making.{Worked};
ghost use Rattle.book.specs.Rooms.{Most};
ghost use Rattle.chains.specs.Tables.{cleared, dropped};
ghost use Rattle.chained.specs.Layout.{room_in, image, later};
ghost use Rattle.chained.specs.Laws.{Capacities, OneImage, marked_image};
ghost use Rattle.chained.specs.Books.{table_in, meaning_of};

use super::ChainedBook;
use crate::rows::{HEAD, RECORD, Rows, wipe};
use book::{Book, Layout, Work, records_in};
use chains::Records;
use faults::{BookFault, WireFault};

// How a chained book lies in memory.
pub struct Chained;

impl Layout for Chained {
    ghost room = { room_in };

    // As many records as fit, at most 1,024. Memory without a whole record is refused as a wrong length.
    fn capacity_in(len: usize) -> Result<u16, WireFault>
        ensures answer { result ≡ room_in len }
        ensures most { Most 132 36 len result }
    {
        records_in::<HEAD, RECORD>(len)
    }

    fn with_book<W: Work + Drop>(memory: &mut [u8], work: W) -> Result<W::Answer, WireFault>
        ensures answer { Worked (W.told work) (room_in (length memory.old)) result }
        ensures stays { length memory.old < 168 → memory.new ≡ memory.old }
    {
        let capacity = Chained::capacity_in(memory.len())?;
        Ok(work.on(ChainedBook::over(memory, capacity)))
    }
}

// The capacities at the edges.
pub fn capacities_are_worked()
    ensures { Capacities }
{}

// No byte in front of the later ones is free.
pub fn memory_is_the_image()
    ensures { OneImage }
{}

impl<'a> ChainedBook<'a> {
    // An empty book over all of the memory that holds a whole record.
    pub fn over(memory: &'a mut [u8], capacity: u16) -> ChainedBook<'a>
        requires { room_in (length memory.old) ≡ Ok capacity }
        ensures capacity { result.rows.capacity ≡ capacity }
        ensures pairs { (meaning_of result).pairs ≡ [] }
        ensures image { result.rows.memory.now ≡ image (cleared capacity) (later memory.old capacity) }
        ensures lender { result.rows.memory.ghost_name ≡ memory.entry.ghost_name }
    {
        wipe(memory, capacity);
        let mut rows = Rows { memory, capacity };
        chains::clear(&mut rows);
        ChainedBook { rows }
    }

    // The bytes that the book lies in: at all times the image of its table.
    pub fn memory(&self) -> &[u8]
        ensures bytes { result.now ≡ self.now.rows.memory.now }
        ensures image { result.now ≡ image (table_in self.now) (later result.now self.now.rows.capacity) }
    {
        self.rows.memory
    }
}

impl<'a> Book for ChainedBook<'a> {
    ghost meaning = { meaning_of };

    fn clear(&mut self)
        ensures meaning { Cleared (meaning_of self.old) (meaning_of self.new) }
        ensures image { self.new.rows.memory.now ≡ image (cleared self.old.rows.capacity) (later self.old.rows.memory.now self.old.rows.capacity) }
        ensures lender { self.new.rows.memory.ghost_name ≡ self.old.rows.memory.ghost_name }
    {
        chains::clear(&mut self.rows);
    }

    fn has(&self, epoch: u16, nonce: &[u8; 32]) -> bool {
        chains::find(&self.rows, epoch, nonce)
    }

    fn mark(&mut self, epoch: u16, nonce: &[u8; 32]) -> Result<(), BookFault>
        ensures meaning { Marked (meaning_of self.old) (epoch, nonce.now) result (meaning_of self.new) }
        ensures image { self.new.rows.memory.now ≡ marked_image result self.old.rows.capacity self.old.rows.memory.now (epoch, nonce.now) }
        ensures lender { self.new.rows.memory.ghost_name ≡ self.old.rows.memory.ghost_name }
    {
        chains::mark(&mut self.rows, epoch, nonce)
    }

    fn drop_epoch(&mut self, epoch: u16) -> u16
        ensures meaning { Dropped (meaning_of self.old) epoch result (meaning_of self.new) }
        ensures image { self.new.rows.memory.now ≡ image (dropped epoch (table_in self.old)) (later self.old.rows.memory.now self.old.rows.capacity) }
        ensures lender { self.new.rows.memory.ghost_name ≡ self.old.rows.memory.ghost_name }
    {
        chains::drop_epoch(&mut self.rows, epoch)
    }

    fn size(&self) -> u16 {
        self.rows.count()
    }

    fn capacity(&self) -> u16 {
        self.rows.capacity
    }
}

// A book may be read as records too, by the code of chains and by whoever looks along them; only its own calls write.
impl<'a> Records for ChainedBook<'a> {
    ghost table = { table_in };

    fn places(&self) -> u16 {
        self.rows.places()
    }

    fn head(&self, chain: u8) -> u16 {
        self.rows.head(chain)
    }

    fn count(&self) -> u16 {
        self.rows.count()
    }

    fn next(&self, number: u16) -> u16 {
        self.rows.next(number)
    }

    fn epoch(&self, number: u16) -> u16 {
        self.rows.epoch(number)
    }

    fn holds(&self, number: u16, epoch: u16, nonce: &[u8; 32]) -> bool {
        self.rows.holds(number, epoch, nonce)
    }
}
