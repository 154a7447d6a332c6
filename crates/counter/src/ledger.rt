// A script's station: the calls on it so far, which are made anew on a fresh station for each line.
//
// A line hands the whole history to `history::run`, over a fresh book of the same length, and says what the last
// call told. So the law over every run is a law of what a script prints.
ghost use Rattle.std.specs.Prelude.{◌≡◌, [], map, reverse, length, IfOk};
ghost use Rattle.book.specs.Making.{Worked};
ghost use Rattle.history.specs.Events.{events, told};
ghost use Rattle.script.specs.Protocol.{served_of};
ghost use Rattle.counter.specs.Ledgers.{lent, lent_of, seen, places_in, standing, grown, LawfulIn, Replayed, Says, ServesAt, KeepsCall};

use crate::orders::Buffers;
use book::{Book, Layout, Work};
use chained::Chained;
use circ523::Point;
use commands::Kind;
use faults::{Fault, WireFault};
use history::{Call, Outcome, Output};
use res2039::Residue;
use script::answers;
use script::answers::Answer;
use script::errors::LineFault;
use script::protocol::Service;
use script::reading::Shelf;
use std::alloc::{AllocError, Global};
use tape::Tape;

// A call that a line made, with the lengths of the buffers that it was lent.
#[derive(Drop)]
struct Entry {
    buffers: Buffers,
    service: Service,
}

impl Entry {
    // The call of a history.
    fn call(&self) -> Call<'_>
        ensures { seen result ≡ lent_of self.now }
    {
        let scratch = self.buffers.scratch;
        let outlet = self.buffers.outlet;
        match &self.service {
            Service::Open { epoch, key } => Call::Open {
                scratch,
                epoch: *epoch,
                key: key.as_slice(),
                outlet,
            },
            Service::Close { epoch } => Call::Close { epoch: *epoch },
            Service::Issue { request, nonce } => Call::Issue {
                scratch,
                request: request.as_slice(),
                nonce: nonce.as_slice(),
                outlet,
            },
            Service::Redeem { token } => Call::Redeem {
                scratch,
                token: token.as_slice(),
            },
            Service::Count => Call::Count,
        }
    }
}

// The calls on a station, with the kind and the length of its book.
#[derive(Drop)]
pub struct Ledger {
    kind: Kind,
    shelf: Shelf,
    length: usize,
    entries: Vec<Entry>,
}

// The calls, made on a station over any book: answers what the last of them told.
#[derive(Drop)]
struct Replay<'a, 'b> {
    kind: Kind,
    calls: &'a [Call<'b>],
    heap: Global,
}

impl<'a, 'b> Work for Replay<'a, 'b> {
    type Answer = Result<Option<Outcome>, AllocError>;

    ghost told = { λ w b r. Replayed w.kind w.calls.now b.capacity r };

    fn on<B: Book + Drop>(self, book: B) -> Result<Option<Outcome>, AllocError> {
        let mut outcomes = vec![in self.heap; Ok(Output::Done); self.calls.len()]?;
        run(self.kind, book, self.calls, outcomes.as_mut_slice());
        Ok(outcomes.pop())
    }
}

// Makes the calls on a fresh station of the chosen group.
// Stays a match of two arms, as in the calls of `commands::Kind`.
fn run<B: Book + Drop>(kind: Kind, book: B, calls: &[Call<'_>], outcomes: &mut [Outcome])
    ensures { LawfulIn kind (B.Book.meaning book).capacity (reverse (events calls.now outcomes.new)) }
{
    match kind {
        Kind::Res2039 => {
            let _made = history::run::<Residue, B>(book, calls, outcomes);
        }
        Kind::Circ523 => {
            let _made = history::run::<Point, B>(book, calls, outcomes);
        }
    }
}

// What a call told, as a line's answer.
fn answer(outcome: Outcome, heap: Global) -> Result<answers::Outcome, LineFault>
    ensures { Says (told outcome) result }
{
    match outcome {
        Ok(Output::Done) => Ok(Ok(Answer::Done)),
        Ok(Output::Number(number)) => Ok(Ok(Answer::Number(u64::from(number)))),
        Ok(Output::Bytes(written)) => {
            let bytes = Vec::from_slice(heap, written.as_slice())?;
            Ok(Ok(Answer::Bytes(bytes)))
        }
        Err(refused) => Ok(Err(refused.refusal())),
    }
}

// Makes the calls on a station over a fresh book.
// Stays a match of two arms, as in `Counter::station`: a kind of book is a type, and a line chooses it by a value.
fn over(
    shelf: Shelf,
    memory: &mut [u8],
    replay: Replay<'_, '_>,
) -> Result<Result<Option<Outcome>, AllocError>, WireFault>
    ensures { Worked (λ b a. Replayed replay.entry.kind replay.entry.calls.now b.capacity a) (places_in shelf (length memory.old)) result }
{
    match shelf {
        Shelf::Tape => Tape::with_book(memory, replay),
        Shelf::Chained => Chained::with_book(memory, replay),
    }
}

impl Ledger {
    // A station without calls yet.
    pub fn new(kind: Kind, shelf: Shelf, length: usize, heap: Global) -> Ledger
        ensures { standing result ≡ (kind, places_in shelf length, []) }
    {
        Ledger {
            kind,
            shelf,
            length,
            entries: Vec::new(heap),
        }
    }

    // The calls so far.
    fn calls(&self, heap: Global) -> Result<Vec<Call<'_>>, AllocError>
        ensures { IfOk result (λ v. map seen v.items ≡ map lent_of self.now.entries.items) }
    {
        let mut calls = Vec::new(heap);
        for entry in &self.entries {
            calls.push(entry.call())?;
        }
        Ok(calls)
    }

    // Makes all the calls on a fresh station, and answers what the last told.
    fn replay(&self, heap: Global) -> Result<answers::Outcome, LineFault>
        ensures { ServesAt (standing self.now) result }
    {
        let calls = self.calls(heap)?;
        let mut memory = vec![in heap; 0u8; self.length]?;
        let replay = Replay {
            kind: self.kind,
            calls: calls.as_slice(),
            heap,
        };
        match over(self.shelf, memory.as_mut_slice(), replay) {
            Ok(told) => match told? {
                Some(outcome) => answer(outcome, heap),
                None => Err(LineFault::NoStation),
            },
            Err(fault) => Ok(Err(fault.refusal())),
        }
    }

    // A call on the station.
    pub fn serve(
        &mut self,
        buffers: Buffers,
        service: Service,
        heap: Global,
    ) -> Result<answers::Outcome, LineFault>
        ensures answer { ServesAt (grown (standing self.old) (lent buffers (served_of service))) result }
        ensures kept { KeepsCall (grown (standing self.old) (lent buffers (served_of service))) (standing self.new) result }
    {
        let Ok(()) = self.entries.push(Entry { buffers, service }) else {
            return Err(LineFault::Memory);
        };
        self.replay(heap)
    }
}
