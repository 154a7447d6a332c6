// The calls of a tape.
ghost use Rattle.std.specs.Prelude.{◌≡◌, ◌<◌, [], map, length, Ok};
ghost use Rattle.book.specs.Meaning.{Cleared, Marked, Dropped, others};
ghost use Rattle.book.specs.Making.{Worked};
ghost use Rattle.book.specs.Rooms.{Most};
ghost use Rattle.tape.specs.Layout.{room_in, pair_at, pairs_of, image, later, marked_image};
ghost use Rattle.tape.specs.Laws.{ReadBack, OneImage, Capacities};
ghost use Rattle.tape.specs.Books.{meaning_of};

use super::TapeBook;
use crate::records::{HEAD, RECORD, clear, is_pair, put_pair, start};
use book::words::{put_word, word_at};
use book::{Book, Layout, Work, records_in};
use faults::{BookFault, WireFault};

// How a tape lies in memory.
pub struct Tape;

impl Layout for Tape {
    ghost room = { room_in };

    // As many records as fit, at most 1,024. Memory without a whole record is refused as a wrong length.
    fn capacity_in(len: usize) -> Result<u16, WireFault>
        ensures answer { result ≡ room_in len }
        ensures most { Most 2 34 len result }
    {
        records_in::<HEAD, RECORD>(len)
    }

    fn with_book<W: Work + Drop>(memory: &mut [u8], work: W) -> Result<W::Answer, WireFault>
        ensures answer { Worked (W.told work) (room_in (length memory.old)) result }
        ensures stays { length memory.old < 36 → memory.new ≡ memory.old }
    {
        let capacity = Tape::capacity_in(memory.len())?;
        Ok(work.on(TapeBook::over(memory, capacity)))
    }
}

// The capacities at the edges: below one record, one, two, and the most.
pub fn capacities_are_worked()
    ensures { Capacities }
{}

// The image and the pairs settle one another.
pub fn image_tells_the_pairs()
    ensures back { ReadBack }
    ensures one { OneImage }
{}

impl<'a> TapeBook<'a> {
    // An empty book over all of the memory that holds a whole record.
    pub fn over(memory: &'a mut [u8], capacity: u16) -> TapeBook<'a>
        requires { room_in (length memory.old) ≡ Ok capacity }
        ensures capacity { result.capacity ≡ capacity }
        ensures pairs { (meaning_of result).pairs ≡ [] }
        ensures image { result.memory.now ≡ image [] capacity (later memory.old capacity) }
        ensures lender { result.memory.ghost_name ≡ memory.entry.ghost_name }
    {
        clear(memory, capacity);
        TapeBook { memory, capacity }
    }

    // The bytes that the book lies in: at all times the image of its pairs.
    pub fn memory(&self) -> &[u8]
        ensures bytes { result.now ≡ self.now.memory.now }
        ensures image { result.now ≡ image (meaning_of self.now).pairs self.now.capacity (later result.now self.now.capacity) }
    {
        self.memory
    }

    // The records, in the order of marking.
    fn records(&self) -> &[[u8; RECORD]]
        ensures { map (λ r. pair_at r 0) result.now ≡ pairs_of self.now.memory.now }
    {
        let (records, _) = self.memory[HEAD..start(self.size())].as_chunks::<RECORD>();
        records
    }
}

impl<'a> Book for TapeBook<'a> {
    ghost meaning = { meaning_of };

    fn clear(&mut self)
        ensures meaning { Cleared (meaning_of self.old) (meaning_of self.new) }
        ensures image { self.new.memory.now ≡ image [] self.old.capacity (later self.old.memory.now self.old.capacity) }
        ensures lender { self.new.memory.ghost_name ≡ self.old.memory.ghost_name }
    {
        clear(self.memory, self.capacity);
    }

    fn has(&self, epoch: u16, nonce: &[u8; 32]) -> bool {
        self.records()
            .iter()
            .any(|stored| is_pair(stored, epoch, nonce))
    }

    // Writes a pair behind the others.
    fn mark(&mut self, epoch: u16, nonce: &[u8; 32]) -> Result<(), BookFault>
        ensures meaning { Marked (meaning_of self.old) (epoch, nonce.now) result (meaning_of self.new) }
        ensures image { self.new.memory.now ≡ marked_image result self.old.memory.now self.old.capacity (epoch, nonce.now) }
        ensures lender { self.new.memory.ghost_name ≡ self.old.memory.ghost_name }
    {
        if self.has(epoch, nonce) {
            return Err(BookFault::Spent);
        }
        let size = self.size();
        if size == self.capacity {
            return Err(BookFault::Full);
        }
        let memory = &mut *self.memory;
        put_pair(memory, start(size), epoch, nonce);
        put_word(memory, 0, size + 1);
        Ok(())
    }

    // Closes the gaps that an epoch's records leave.
    // Stays with two places counted by hand: a record moves within the slice that is gone along, which no
    // iterator lends for reading and writing at once, and `retain` is a heap's `Vec`'s.
    fn drop_epoch(&mut self, epoch: u16) -> u16
        ensures meaning { Dropped (meaning_of self.old) epoch result (meaning_of self.new) }
        ensures image { self.new.memory.now ≡ image (others epoch (meaning_of self.old).pairs) self.old.capacity (later self.old.memory.now self.old.capacity) }
        ensures lender { self.new.memory.ghost_name ≡ self.old.memory.ghost_name }
    {
        let size = self.size();
        let memory = &mut *self.memory;
        let mut stay = 0;
        for i in 0..size {
            let from = start(i);
            if word_at(memory, from) != epoch {
                memory.copy_within(from..from + RECORD, start(stay));
                stay += 1;
            }
        }
        memory[start(stay)..start(size)].fill(0);
        put_word(memory, 0, stay);
        size - stay
    }

    fn size(&self) -> u16 {
        word_at(self.memory, 0)
    }

    fn capacity(&self) -> u16 {
        self.capacity
    }
}
