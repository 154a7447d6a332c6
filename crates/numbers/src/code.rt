// The code of an element or of a scalar: the first `len` bytes, at most 8. The others mean nothing.
// Stays a buffer and its length: a code is copied as a plain value, and an `ArrayVec` is not `Copy`.
ghost use Rattle.std.specs.Prelude.{◌≤◌};

#[derive(Clone, Copy)]
pub struct Code {
    pub bytes: [u8; 8],
    pub len: usize,
    ghost short: { len ≤ 8 },
}
