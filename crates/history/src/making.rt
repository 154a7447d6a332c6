// One call of a station, with a scratch and an outlet of the lengths that it asks for.
ghost use Rattle.std.specs.Prelude.{◌≡◌};
ghost use Rattle.ring.specs.Places.{places, key_in, admits};
ghost use Rattle.station.specs.Answers.{opening, published, places_after, latest_after};
ghost use Rattle.station.specs.Issuing.{issue_answer};
ghost use Rattle.station.specs.Redeeming.{redeemable, Redeems, Closes, closed_places};
ghost use Rattle.history.specs.Events.{told};
ghost use Rattle.history.specs.Law.{bytes_told};

use crate::calls::{LONGEST, Outcome, Output, Written};
use book::Book;
use faults::StationFault;
use group::Group;
use scratch::ENOUGH;
use station::Station;

// What is lent to the calls of a run. A scratch above the length that suffices, and an outlet above the longest output,
// are as good as these.
#[derive(Drop)]
pub struct Buffers {
    scratch: [u8; ENOUGH],
    outlet: [u8; LONGEST],
}

impl Buffers {
    pub fn new() -> Buffers {
        Buffers {
            scratch: [0; ENOUGH],
            outlet: [0; LONGEST],
        }
    }

    // Stays beside `issue`, with the same lending of the buffers: a closure for the call between would have to say in
    // a contract of its own what the call leaves of the station.
    pub fn open<G: Group, B: Book>(
        &mut self,
        station: &mut Station<G, B>,
        scratch: usize,
        epoch: u16,
        key: &[u8],
        outlet: usize,
    ) -> Outcome
        ensures told { told result ≡ bytes_told (published G.Group.model (opening G.Group.model scratch (admits station.old.ring epoch) key.now outlet)) }
        ensures places { places station.new.ring ≡ places_after (opening G.Group.model scratch (admits station.old.ring epoch) key.now outlet) epoch (places station.old.ring) }
        ensures latest { station.new.ring.latest ≡ latest_after (opening G.Group.model scratch (admits station.old.ring epoch) key.now outlet) epoch station.old.ring.latest }
        ensures book { station.new.book ≡ station.old.book }
    {
        let lent = &mut self.scratch[0..scratch.min(ENOUGH)];
        let room = &mut self.outlet[0..outlet.min(LONGEST)];
        let len = station.open(lent, epoch, key, room)?;
        Ok(Output::Bytes(Written {
            bytes: self.outlet,
            len,
        }))
    }

    pub fn issue<G: Group, B: Book>(
        &mut self,
        station: &Station<G, B>,
        scratch: usize,
        request: &[u8],
        nonce: &[u8],
        outlet: usize,
    ) -> Outcome
        ensures { told result ≡ bytes_told (issue_answer G.Group.model scratch (key_in (places station.now.ring)) request.now nonce.now outlet) }
    {
        let lent = &mut self.scratch[0..scratch.min(ENOUGH)];
        let room = &mut self.outlet[0..outlet.min(LONGEST)];
        let len = station.issue(lent, request, nonce, room)?;
        Ok(Output::Bytes(Written {
            bytes: self.outlet,
            len,
        }))
    }

    pub fn redeem<G: Group, B: Book>(
        &mut self,
        station: &mut Station<G, B>,
        scratch: usize,
        token: &[u8],
    ) -> Result<(), StationFault>
        ensures answer { Redeems (redeemable G.Group.model scratch (key_in (places station.old.ring)) token.now) (B.Book.meaning station.old.book) result (B.Book.meaning station.new.book) }
        ensures ring { station.new.ring ≡ station.old.ring }
    {
        let lent = &mut self.scratch[0..scratch.min(ENOUGH)];
        station.redeem(lent, token)
    }
}
