// Chains of records: the logic of a chained book, over any way in which its records lie in memory.
//
//   heads 0..63 ──> record ──> record ──> 0      each chain holds the pairs whose nonce belongs to it
//   free head   ──> record ──> record ──> 0      the records that hold no pair
//
// Records are numbered from 1 and chained by `next`; zero ends a chain. `Records` is all that the logic
// knows of memory; a layout of bytes implements it. `find`, `clear`, `mark` and `drop_epoch` are written
// and proved once over it, so every layout takes and frees its records in the same order.
#![tactic(auto)]

ghost use Rattle.std.specs.Prelude.{◌≡◌, ℕ, ◌+◌, ◌-◌, ◌<◌, ◌≤◌, List, length, Decides};
ghost use Rattle.chains.specs.Tables.{Entry, Table, at, head, pair_of, chain_of, with_head, with_size, with_entry, with_next, zeroed, cleared, bridged, freed, swept, dropped};
ghost use Rattle.chains.specs.Calls.{Chained, Marks};
ghost use Rattle.chains.specs.Laws.{OneAnswer, Found, ClearedChains, MarkedChains, DroppedChains};

use faults::BookFault;

// How many chains there are. The free chain's head stands behind theirs.
pub const CHAINS: u8 = 64;

// The records as the chains see them. A number that no record has reads as a blank record.
// Stays numbers that lead from record to record, with zero for none: every byte of a book in lent memory is
// promised, and the part has no heap for nodes of its own.
pub trait Records {
    // The heads, the size and the records.
    ghost table: { Self → Table };

    // How many records there are.
    fn places(&self) -> u16
        ensures { result ≡ length (table self.now).entries };

    // A chain's first record; that of the free chain at `CHAINS`.
    fn head(&self, chain: u8) -> u16
        ensures { result ≡ head (table self.now) chain };

    // The size.
    fn count(&self) -> u16
        ensures { result ≡ (table self.now).size };

    fn next(&self, number: u16) -> u16
        ensures { result ≡ (at (table self.now) number).next };

    fn epoch(&self, number: u16) -> u16
        ensures { result ≡ (at (table self.now) number).epoch };

    // Whether a record has this pair.
    fn holds(&self, number: u16, epoch: u16, nonce: &[u8; 32]) -> bool
        ensures { Decides result (pair_of (at (table self.now) number) ≡ (epoch, nonce.now)) };
}

// Records that can be written. A write to a number that no record has writes nothing, and no call alters
// what lies beside the records.
pub trait RecordsMut: Records {
    // Whose memory they lie in, by the number of the loan, and the bytes beside them.
    ghost beside: { Self → ℕ × List ℕ };

    fn put_head(&mut self, chain: u8, number: u16)
        ensures table { Self.Records.table self.new ≡ with_head (Self.Records.table self.old) chain number }
        ensures beside { beside self.new ≡ beside self.old };

    fn put_count(&mut self, count: u16)
        ensures table { Self.Records.table self.new ≡ with_size (Self.Records.table self.old) count }
        ensures beside { beside self.new ≡ beside self.old };

    fn put_next(&mut self, number: u16, next: u16)
        ensures table { Self.Records.table self.new ≡ with_next (Self.Records.table self.old) number next }
        ensures beside { beside self.new ≡ beside self.old };

    // Writes a whole record.
    fn put(&mut self, number: u16, next: u16, epoch: u16, nonce: &[u8; 32])
        ensures table { Self.Records.table self.new ≡ with_entry (Self.Records.table self.old) number (record { next = next; epoch = epoch; nonce = nonce.now }) }
        ensures beside { beside self.new ≡ beside self.old };

    // Zeroes the heads, the size and every record.
    fn wipe(&mut self)
        ensures table { Self.Records.table self.new ≡ zeroed (length (Self.Records.table self.old).entries) }
        ensures beside { beside self.new ≡ beside self.old };
}

// The chain that a nonce belongs to: its last byte modulo 64.
pub fn chain_of(nonce: &[u8; 32]) -> u8
    ensures { result ≡ chain_of nonce.now }
{
    nonce[31] % CHAINS
}

// Whether a pair is in its chain. A walk takes no more steps than there are records.
pub fn find<R: Records>(records: &R, epoch: u16, nonce: &[u8; 32]) -> bool
    ensures { Decides result (Chained (R.table records.now) (epoch, nonce.now)) }
{
    let mut number = records.head(chain_of(nonce));
    for _ in 0..records.places() {
        if number == 0 {
            return false;
        }
        if records.holds(number, epoch, nonce) {
            return true;
        }
        number = records.next(number);
    }
    false
}

// Empties every chain, and chains the free records 1, 2, … in order.
pub fn clear<R: RecordsMut>(records: &mut R)
    ensures table { R.Records.table records.new ≡ cleared (length (R.Records.table records.old).entries) }
    ensures beside { R.beside records.new ≡ R.beside records.old }
{
    records.wipe();
    for number in 1..records.places() {
        records.put_next(number, number + 1);
    }
    records.put_head(CHAINS, 1);
}

// Adds a pair: the first free record takes it and goes to the front of its chain.
pub fn mark<R: RecordsMut>(records: &mut R, epoch: u16, nonce: &[u8; 32]) -> Result<(), BookFault>
    ensures table { Marks (R.Records.table records.old) (epoch, nonce.now) result (R.Records.table records.new) }
    ensures beside { R.beside records.new ≡ R.beside records.old }
{
    if find(records, epoch, nonce) {
        return Err(BookFault::Spent);
    }
    let size = records.count();
    if size >= records.places() {
        return Err(BookFault::Full);
    }
    let chain = chain_of(nonce);
    let number = records.head(CHAINS);
    let free = records.next(number);
    let first = records.head(chain);
    records.put(number, first, epoch, nonce);
    records.put_head(CHAINS, free);
    records.put_head(chain, number);
    records.put_count(size + 1);
    Ok(())
}

// Leads a chain past a record: from the one before it, or from the head where there is none.
fn bridge<R: RecordsMut>(records: &mut R, chain: u8, before: u16, rest: u16)
    ensures table { R.Records.table records.new ≡ bridged (R.Records.table records.old) chain before rest }
    ensures beside { R.beside records.new ≡ R.beside records.old }
{
    if before == 0 {
        records.put_head(chain, rest);
    } else {
        records.put_next(before, rest);
    }
}

// Zeroes a record and puts it at the front of the free chain.
fn free<R: RecordsMut>(records: &mut R, number: u16)
    ensures table { R.Records.table records.new ≡ freed (R.Records.table records.old) number }
    ensures beside { R.beside records.new ≡ R.beside records.old }
{
    let first = records.head(CHAINS);
    let size = records.count();
    records.put(number, first, 0, &[0; 32]);
    records.put_head(CHAINS, number);
    records.put_count(size.saturating_sub(1));
}

// Frees the records of an epoch in one chain, from its front.
fn sweep<R: RecordsMut>(records: &mut R, epoch: u16, chain: u8)
    ensures table { R.Records.table records.new ≡ swept epoch chain (length (R.Records.table records.old).entries) 0 (head (R.Records.table records.old) chain) (R.Records.table records.old) }
    ensures beside { R.beside records.new ≡ R.beside records.old }
{
    let mut before = 0;
    let mut number = records.head(chain);
    for _ in 0..records.places() {
        if number == 0 {
            return;
        }
        let next = records.next(number);
        if records.epoch(number) == epoch {
            bridge(records, chain, before, next);
            free(records, number);
        } else {
            before = number;
        }
        number = next;
    }
}

// Frees the records of an epoch in the chains 0 to 63, and answers how many they were.
pub fn drop_epoch<R: RecordsMut>(records: &mut R, epoch: u16) -> u16
    ensures table { R.Records.table records.new ≡ dropped epoch (R.Records.table records.old) }
    ensures beside { R.beside records.new ≡ R.beside records.old }
    ensures count { result ≡ (R.Records.table records.old).size - (R.Records.table records.new).size }
{
    let size = records.count();
    for chain in 0..CHAINS {
        sweep(records, epoch, chain);
    }
    size.saturating_sub(records.count())
}

// What the calls make of the chains and of the pairs, whatever way the records lie: the order in which
// records are taken and freed, and the set of pairs that they leave.
pub fn chains_keep_a_set()
    ensures one { OneAnswer }
    ensures found { Found }
    ensures clear { ClearedChains }
    ensures mark { MarkedChains }
    ensures drop { DroppedChains }
{}
