// The chained book: a spent book in memory that its maker hands in, with 64 chains to look pairs up in.
//
//   byte 0       128         130    132      168      204              132 + 36 c        end
//        | heads | free head | size | record | record | .. c records .. | later bytes .. |
//          64 of 2             record: next (2), epoch (2), nonce (32)
//
// Records are numbered from 1 and chained by next; zero ends a chain. A pair stands in the chain of its
// nonce's last byte modulo 64, so a look-up goes along one chain and not along all records. Free records are
// zero but for next, and stand in a chain of their own. The capacity c is as many records as fit, at most
// 1,024; the later bytes are never touched. The crate `chains` has the logic, over any layout of the
// records; this one has their layout in bytes. A station is made over it as over any other book.
#![tactic(auto)]

mod chained_book;
mod nonces;
mod rows;

pub use chained_book::{Chained, ChainedBook, capacities_are_worked, memory_is_the_image};
