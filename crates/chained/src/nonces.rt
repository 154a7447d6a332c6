// Nonces in the bytes of a book.
ghost use Rattle.std.specs.Prelude.{◌≡◌, ℕ, ◌+◌, ◌<◌, ◌≤◌, ◌⊎◌, length, take, drop, Decides, slice_index};
ghost use Rattle.book.specs.Words.{Bytes};

use std::simd::prelude::*;

// Writes a nonce.
pub fn put_nonce(m: &mut [u8], at: usize, nonce: &[u8; 32])
    requires { at + 32 ≤ length m.old }
    ensures there { take 32 (drop at m.new) ≡ nonce.now }
    ensures others { (k : ℕ) → (k < at) ⊎ (at + 32 ≤ k) → slice_index m.new k ≡ slice_index m.old k }
    ensures bytes { Bytes m.new }
{
    m[at..at + 32].copy_from_slice(nonce);
}

// Whether a nonce stands at a byte. All 32 bytes are compared at once: a walk along a chain then has one
// branch a record for the nonce, and the compiler lays the whole comparison into the walk.
// Stays beside the tape's comparison of slices: in a tape this one is the slower of the two.
pub fn nonce_at(m: &[u8], at: usize, nonce: &[u8; 32]) -> bool
    requires { at + 32 ≤ length m.now }
    ensures { Decides result (take 32 (drop at m.now) ≡ nonce.now) }
{
    let stored = u8x32::from_slice(&m[at..at + 32]);
    stored.simd_eq(u8x32::from_slice(nonce)).all()
}
