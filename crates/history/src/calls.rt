// A call of a station, and what it told.
ghost use Rattle.std.specs.Prelude.{◌≡◌, take};

use faults::StationFault;

// The longest that a call writes: a reply of 16 elements of 8 bytes, with two scalars of 2.
pub const LONGEST: usize = 137;

// A call of a station, with all that is handed in. What a scratch and an outlet hold matters to no answer, so a call
// has their lengths.
#[derive(Clone, Copy)]
pub enum Call<'a> {
    Count,
    Open {
        scratch: usize,
        epoch: u16,
        key: &'a [u8],
        outlet: usize,
    },
    Close {
        epoch: u16,
    },
    Issue {
        scratch: usize,
        request: &'a [u8],
        nonce: &'a [u8],
        outlet: usize,
    },
    Redeem {
        scratch: usize,
        token: &'a [u8],
    },
}

// What a call wrote to the front of its outlet: a public key or a reply.
// Stays an array with a length beside it: the outcomes of a run are kept with no heap.
#[derive(Clone, Copy)]
pub struct Written {
    pub(crate) bytes: [u8; LONGEST],
    pub(crate) len: usize,
}

impl Written {
    // The bytes.
    pub fn as_slice(&self) -> &[u8]
        ensures { result.now ≡ take self.now.len self.now.bytes }
    {
        &self.bytes[0..self.len.min(LONGEST)]
    }
}

// What a call gave that was not refused: nothing more, a number, or the bytes that it wrote.
#[derive(Clone, Copy)]
pub enum Output {
    Done,
    Number(u16),
    Bytes(Written),
}

// What a call told: what it gave, or its fault.
pub type Outcome = Result<Output, StationFault>;
