// A lone book on the bench program's desk: what each call of a script on it answers, for every kind of book.
//
//   script --Call--> desk --B--> book (tape, chained)
//
// The program makes a book over memory that it owns and hands it to `Desk`; without one, `Empty` is on the desk.
#![tactic(auto)]

ghost use Rattle.std.specs.Prelude.{◌≡◌, ℕ, List, Decides};
ghost use Rattle.book.specs.Meaning.{In, Cleared, Dropped, size_of};
ghost use Rattle.desk.specs.Calls.{Marks, Tells};

use book::Book;
use chained::ChainedBook;
use faults::{BookFault, Fault, StationFault, WireFault};
use script::answers::{Answer, Outcome};
use script::errors::LineFault;
use script::tasks::Call;
use std::alloc::Global;
use tape::TapeBook;

// A book whose memory can be shown.
pub trait Shown: Book {
    fn image(&self) -> &[u8];
}

// What answers the calls of a script.
pub trait Desk {
    fn answer(&mut self, call: &Call, heap: Global) -> Result<Outcome, LineFault>;
}

// Adds a pair to the book; a nonce that is not 32 bytes is refused as a wrong length.
pub fn mark<B: Book>(book: &mut B, epoch: u16, nonce: &[u8]) -> Result<(), StationFault>
    ensures { Marks (B.Book.meaning book.old) epoch nonce.now result (B.Book.meaning book.new) }
{
    let Ok(nonce) = <&[u8; 32]>::try_from(nonce) else {
        return Err(StationFault::Wire(WireFault::WrongLength));
    };
    book.mark(epoch, nonce)?;
    Ok(())
}

// Whether a pair is in the book; a nonce that is not 32 bytes is refused as a wrong length.
pub fn has<B: Book>(book: &B, epoch: u16, nonce: &[u8]) -> Result<bool, WireFault>
    ensures { Tells (B.Book.meaning book.now) epoch nonce.now result }
{
    let Ok(nonce) = <&[u8; 32]>::try_from(nonce) else {
        return Err(WireFault::WrongLength);
    };
    Ok(book.has(epoch, nonce))
}

// What a book answers to a call.
pub fn ask<B: Shown>(book: &mut B, call: &Call, heap: Global) -> Result<Outcome, LineFault> {
    let answer = match call {
        Call::Mark { epoch, nonce } => match mark(book, *epoch, nonce.as_slice()) {
            Ok(()) => Answer::Done,
            Err(fault) => return Ok(Err(fault.refusal())),
        },
        Call::Has { epoch, nonce } => match has(book, *epoch, nonce.as_slice()) {
            Ok(yes) => Answer::Flag(yes),
            Err(fault) => return Ok(Err(StationFault::Wire(fault).refusal())),
        },
        Call::Drop { epoch } => Answer::Number(u64::from(book.drop_epoch(*epoch))),
        Call::Size => Answer::Number(u64::from(book.size())),
        Call::Clear => {
            book.clear();
            Answer::Done
        }
        Call::Image => Answer::Bytes(Vec::from_slice(heap, book.image())?),
    };
    Ok(Ok(answer))
}

// No book is on the desk.
#[derive(Drop)]
pub struct Empty;

impl Desk for Empty {
    fn answer(&mut self, _call: &Call, _heap: Global) -> Result<Outcome, LineFault> {
        Err(LineFault::NoBook)
    }
}

// Stays an impl for each kind: each lends its bytes by a call of its own, with a clause of its own on them.
impl<'a> Shown for TapeBook<'a> {
    fn image(&self) -> &[u8] {
        self.memory()
    }
}

impl<'a> Shown for ChainedBook<'a> {
    fn image(&self) -> &[u8] {
        self.memory()
    }
}

impl<B: Shown> Desk for B {
    fn answer(&mut self, call: &Call, heap: Global) -> Result<Outcome, LineFault> {
        ask(self, call, heap)
    }
}
