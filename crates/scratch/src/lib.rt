// The scratch: bytes that a caller lends for the work of one call, in which hash inputs are put together.
//
// What passes through it may be secret, so a guard holds it: whichever way the call ends, by its answer or by
// any refusal, the guard is dropped there and all of the bytes read zero. A call makes the guard first and
// tests the length next, so that a scratch which is too short reads zero as well.
#![tactic(auto)]

ghost use Rattle.std.specs.Prelude.{◌≡◌, length, replicate};

// How many bytes a call asks for.
pub const ENOUGH: usize = 1024;

// Stays with its bytes open, and each call takes the first of them by `first_chunk_mut`: for a method that lends
// them, `self.bytes.first_chunk_mut().ok_or(..)`, no proof is generated of what the guard holds afterwards.
pub struct Scratch<'a> {
    pub bytes: &'a mut [u8],
}

impl Drop for Scratch<'_> {
    fn drop(self)
        ensures { self.exit.0.now ≡ replicate (length self.entry.bytes.now) 0 }
    {
        self.bytes.fill(0);
        let Scratch { bytes: _ } = self;
    }
}
