// The records of a tape, as bytes.
ghost use Rattle.std.specs.Prelude.{◌≡◌, ℕ, ◌+◌, ◌<◌, ◌≤◌, ◌⊎◌, [], length, Decides, slice_index};
ghost use Rattle.tape.specs.Layout.{place, pair_at, pairs_of, image, later, Fitting, Sound};

use book::words::{put_word, word_at};

// Where the records begin, behind the size.
pub const HEAD: usize = 2;

// How long a record is.
pub const RECORD: usize = 34;

// Where a record begins.
pub fn start(i: u16) -> usize
    ensures { result ≡ place i }
{
    HEAD + RECORD * i as usize
}

// Whether a record is this pair's.
// Stays a comparison of slices, which looks at the first bytes alone where they differ: all 32 bytes at once, as
// `chained` compares them, made look-ups in a tape of 1,024 pairs three times as slow.
pub fn is_pair(stored: &[u8; 34], epoch: u16, nonce: &[u8; 32]) -> bool
    ensures { Decides result (pair_at stored.now 0 ≡ (epoch, nonce.now)) }
{
    word_at(stored, 0) == epoch && stored[2..] == nonce[..]
}

// Writes a record.
pub fn put_pair(m: &mut [u8], at: usize, epoch: u16, nonce: &[u8; 32])
    requires { at + 34 ≤ length m.old }
    ensures there { pair_at m.new at ≡ (epoch, nonce.now) }
    ensures others { (k : ℕ) → (k < at) ⊎ (at + 34 ≤ k) → slice_index m.new k ≡ slice_index m.old k }
{
    put_word(m, at, epoch);
    m[at + 2..at + 34].copy_from_slice(nonce);
}

// Zeros the size and every place.
pub fn clear(m: &mut [u8], capacity: u16)
    requires { Fitting m.old capacity }
    ensures sound { Sound m.new capacity }
    ensures pairs { pairs_of m.new ≡ [] }
    ensures image { m.new ≡ image [] capacity (later m.old capacity) }
{
    m[0..start(capacity)].fill(0);
}
