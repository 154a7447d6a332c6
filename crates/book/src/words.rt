// Numbers in two bytes, the higher first, as a kind of book writes them in lent memory.
ghost use Rattle.std.specs.Prelude.{◌≡◌, ℕ, ◌+◌, ◌<◌, ◌≤◌, ◌⊎◌, length, slice_index};
ghost use Rattle.book.specs.Words.{word, Bytes};

// The number in two bytes.
pub fn word_at(m: &[u8], at: usize) -> u16
    requires { at + 1 < length m.now }
    ensures { result ≡ word m.now at }
{
    u16::from_be_bytes([m[at], m[at + 1]])
}

// Writes a number in two bytes.
pub fn put_word(m: &mut [u8], at: usize, x: u16)
    requires { at + 1 < length m.old }
    ensures there { word m.new at ≡ x }
    ensures others { (k : ℕ) → (k < at) ⊎ (at + 2 ≤ k) → slice_index m.new k ≡ slice_index m.old k }
    ensures bytes { Bytes m.new }
{
    [m[at], m[at + 1]] = x.to_be_bytes();
}
