// The tape: a spent book in memory that its maker hands in.
//
//   byte 0      2        36       70                2 + 34 n         2 + 34 c          end
//        | size | record | record | .. n records .. | zeros up to c .. | later bytes .. |
//                 record: epoch (2), nonce (32)
//
// The records stand in the order of marking, and drop closes the gaps, so the tape is the plainest of the
// books, and its look-ups the slowest: each goes along the records. The capacity c is as many records as
// fit, at most 1,024; the later bytes are never touched. A station is made over it as over any other book.
#![tactic(auto)]

mod records;
mod tape_book;

pub use tape_book::{Tape, TapeBook, capacities_are_worked, image_tells_the_pairs};
