// The rows as the chains see them: each call reads or writes one part of the table.
ghost use Rattle.std.specs.Prelude.{◌≡◌, ◌-◌, ◌≤◌, length, Decides};
ghost use Rattle.chains.specs.Tables.{zeroed};
ghost use Rattle.chained.specs.Layout.{place, table_of, later, Written};

use super::Rows;
use crate::nonces::{nonce_at, put_nonce};
use book::words::{put_word, word_at};
use chains::{CHAINS, Records, RecordsMut};

// Where the size stands, behind the heads.
const SIZE: usize = 130;

// Where the records begin.
pub const HEAD: usize = 132;

// How long a record is.
pub const RECORD: usize = 36;

// Where the record of a number begins.
// Stays a place, from which the parts of a record are reckoned: each call reads or writes one part, and a record as
// an array would be borrowed whole for it.
fn start(number: u16) -> usize
    requires { 1 ≤ number }
    ensures { result ≡ place (number - 1) }
{
    HEAD + RECORD * (number as usize - 1)
}

// Zeroes the heads, the size and every record.
// Stays a function of the slice: rows are made only of bytes, and that lent memory is made of them is known
// where a call ends that has the slice itself.
pub fn wipe(m: &mut [u8], capacity: u16)
    requires { place capacity ≤ length m.old }
    ensures { Written capacity m.old m.new (zeroed (length (table_of capacity m.old).entries)) }
{
    m[0..HEAD + RECORD * capacity as usize].fill(0);
}

impl<'a> Rows<'a> {
    // Whether there is a record of this number.
    fn has(&self, number: u16) -> bool
        ensures { Decides result ((1 ≤ number) × (number ≤ self.now.capacity)) }
    {
        1 <= number && number <= self.capacity
    }
}

impl<'a> Records for Rows<'a> {
    ghost table = { λ r. table_of r.capacity r.memory.now };

    fn places(&self) -> u16 {
        self.capacity
    }

    fn head(&self, chain: u8) -> u16 {
        if chain > CHAINS {
            return 0;
        }
        word_at(self.memory, 2 * chain as usize)
    }

    fn count(&self) -> u16 {
        word_at(self.memory, SIZE)
    }

    fn next(&self, number: u16) -> u16 {
        if !self.has(number) {
            return 0;
        }
        word_at(self.memory, start(number))
    }

    fn epoch(&self, number: u16) -> u16 {
        if !self.has(number) {
            return 0;
        }
        word_at(self.memory, start(number) + 2)
    }

    fn holds(&self, number: u16, epoch: u16, nonce: &[u8; 32]) -> bool {
        if !self.has(number) {
            return epoch == 0 && nonce == &[0; 32];
        }
        let at = start(number);
        if word_at(self.memory, at + 2) != epoch {
            return false;
        }
        nonce_at(self.memory, at + 4, nonce)
    }
}

impl<'a> RecordsMut for Rows<'a> {
    ghost beside = { λ r. (r.memory.ghost_name, later r.memory.now r.capacity) };

    fn put_head(&mut self, chain: u8, number: u16) {
        if chain <= CHAINS {
            put_word(self.memory, 2 * chain as usize, number);
        }
    }

    fn put_count(&mut self, count: u16) {
        put_word(self.memory, SIZE, count);
    }

    fn put_next(&mut self, number: u16, next: u16) {
        if self.has(number) {
            put_word(self.memory, start(number), next);
        }
    }

    fn put(&mut self, number: u16, next: u16, epoch: u16, nonce: &[u8; 32]) {
        if self.has(number) {
            let at = start(number);
            put_word(self.memory, at, next);
            put_word(self.memory, at + 2, epoch);
            put_nonce(self.memory, at + 4, nonce);
        }
    }

    fn wipe(&mut self) {
        wipe(self.memory, self.capacity);
    }
}
