// A chained book over lent memory, with what holds of it at all times.
ghost use Rattle.book.specs.Meaning.{Apart};
ghost use Rattle.chains.specs.Chains.{pairs, ShapedTable, Ended, Within, Placed, Unfree, Epochless, Nonceless, Counted};
ghost use Rattle.chained.specs.Layout.{table_of};

use crate::rows::Rows;

#[derive(Drop)]
pub struct ChainedBook<'a> {
    rows: Rows<'a>,
    // there are 65 heads, and nonces of 32 bytes
    ghost shaped: { ShapedTable (table_of rows.capacity rows.memory.now) },
    // each chain ends, and leads over records that are there
    ghost ended: { Ended (table_of rows.capacity rows.memory.now) },
    ghost within: { Within (table_of rows.capacity rows.memory.now) },
    // each pair is in its chain, and no record of a chain is free
    ghost placed: { Placed (table_of rows.capacity rows.memory.now) },
    ghost unfree: { Unfree (table_of rows.capacity rows.memory.now) },
    // free records are zero
    ghost epochless: { Epochless (table_of rows.capacity rows.memory.now) },
    ghost nonceless: { Nonceless (table_of rows.capacity rows.memory.now) },
    // the size is the number of pairs, and the other records are free
    ghost counted: { Counted (table_of rows.capacity rows.memory.now) },
    // no pair stands in it twice
    ghost apart: { Apart (pairs (table_of rows.capacity rows.memory.now)) },
}

mod methods;

pub use methods::{Chained, capacities_are_worked, memory_is_the_image};
