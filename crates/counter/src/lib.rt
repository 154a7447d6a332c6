// The bench program's counter: what a script's lines ask of the client and of a station is done here, with
// buffers of the lengths that the script has set.
//
//   script --Action--> counter --orders--> client      (one batch pending at a time)
//                         |
//                         +-----ledger--> history::run (a station, over a book of the script's choice)
#![tactic(auto)]

ghost use Rattle.std.specs.Prelude.{◌≡◌, None};
ghost use Rattle.script.specs.Protocol.{acted_of};
ghost use Rattle.script.specs.Reports.{outcome_of};
ghost use Rattle.counter.specs.Counters.{lengths_after, Answered, Founded, Stations};
ghost use Rattle.counter.specs.Ledgers.{places_in, stands};
ghost use Rattle.counter.specs.Orders.{waiting};

use book::Layout;
use chained::Chained;
use client::{Order, Pending};
use commands::Kind;
use faults::Fault;
use ledger::Ledger;
use orders::Buffers;
use scratch::ENOUGH;
use script::answers::{Answer, Outcome};
use script::errors::LineFault;
use script::protocol::Action;
use script::reading::{ROOM, Shelf};
use std::alloc::Global;
use tape::Tape;

pub mod ledger;
pub mod orders;

// What the lines of a script have set so far, and the station that they have made.
#[derive(Drop)]
pub struct Counter {
    pub(crate) buffers: Buffers,
    pub(crate) ledger: Option<Ledger>,
}

impl Counter {
    // At first a scratch is just long enough, and every answer fits the outlet.
    pub fn new() -> Counter
        ensures lengths { result.buffers ≡ record { scratch = 1024; outlet = 2112 } }
        ensures station { stands result.ledger ≡ None }
    {
        Counter {
            buffers: Buffers {
                scratch: ENOUGH,
                outlet: ROOM as usize,
            },
            ledger: None,
        }
    }

    // The station ends: another group was chosen.
    pub fn leave(&mut self)
        ensures lengths { self.new.buffers ≡ self.old.buffers }
        ensures station { stands self.new.ledger ≡ None }
    {
        self.ledger = None;
    }

    // Makes a station over a fresh book of so many bytes, in place of the one before.
    fn station(&mut self, kind: Kind, shelf: Shelf, length: usize, heap: Global) -> Outcome
        ensures lengths { self.new.buffers ≡ self.old.buffers }
        ensures station { Founded kind (places_in shelf length) (stands self.new.ledger) (outcome_of result) }
    {
        let capacity = match shelf {
            Shelf::Tape => Tape::capacity_in(length),
            Shelf::Chained => Chained::capacity_in(length),
        };
        match capacity {
            Ok(_) => {
                self.ledger = Some(Ledger::new(kind, shelf, length, heap));
                Ok(Answer::Done)
            }
            Err(fault) => {
                self.ledger = None;
                Err(fault.refusal())
            }
        }
    }

    // What a line asks of the client, of a station or of the buffers.
    pub fn answer(
        &mut self,
        kind: Kind,
        action: Action,
        pending: &mut Option<Pending>,
        heap: Global,
    ) -> Result<Outcome, LineFault>
        ensures lengths { self.new.buffers ≡ lengths_after (acted_of action) self.old.buffers }
        ensures answer { Answered kind self.old.buffers (waiting pending.old) (waiting pending.new) (acted_of action) result }
        ensures station { Stations kind self.old.buffers (stands self.old.ledger) (stands self.new.ledger) (acted_of action) result }
    {
        let buffers = self.buffers;
        match action {
            Action::Scratch { length } => {
                self.buffers.scratch = length as usize;
                Ok(Ok(Answer::Done))
            }
            Action::Outlet { length } => {
                self.buffers.outlet = length as usize;
                Ok(Ok(Answer::Done))
            }
            Action::Blind {
                epoch,
                pk,
                seeds,
                blinds,
            } => {
                let order = Order {
                    pk: pk.as_slice(),
                    seeds: seeds.as_slice(),
                    blinds: blinds.as_slice(),
                };
                orders::blind(kind, buffers, pending, epoch, order, heap)
            }
            Action::Finish {
                pk,
                seeds,
                blinds,
                reply,
            } => {
                let order = Order {
                    pk: pk.as_slice(),
                    seeds: seeds.as_slice(),
                    blinds: blinds.as_slice(),
                };
                orders::finish(kind, buffers, pending, order, reply.as_slice(), heap)
            }
            Action::Abandon => orders::abandon(pending),
            Action::Station { shelf, length } => {
                Ok(self.station(kind, shelf, length as usize, heap))
            }
            Action::Serve { service } => match &mut self.ledger {
                Some(ledger) => ledger.serve(buffers, service, heap),
                None => Err(LineFault::NoStation),
            },
        }
    }
}
