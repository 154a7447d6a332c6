// The station: what a maker's server or probe runs. It opens and closes epochs, answers requests for tokens,
// and redeems each token once.
//
//   open epoch --> ring      request --issue--> reply      token --redeem--> book      close epoch --> book, ring
//
// It is made over a group and a book, by their interfaces alone. `docs/STATION.md` has each call in words.
#![tactic(auto)]

ghost use Rattle.std.specs.Prelude.{◌≡◌, ℕ, [], ◌∷◌, length, replicate, None};
ghost use Rattle.ring.specs.Places.{places, key_in, admits};
ghost use Rattle.book.specs.Meaning.{Cleared, size_of};
ghost use Rattle.station.specs.Answers.{opening, published, counted, outlet_after, places_after, latest_after};
ghost use Rattle.station.specs.Issuing.{issue_answer};
ghost use Rattle.station.specs.Redeeming.{redeemable, Redeems, Unasked, Undropped, Closes, closed_places};

use book::Book;
use faults::StationFault;
use group::Group;
use issuing::{accept, reply};
use opening::admitted_key;
use redeeming::redeemed_pair;
use ring::Ring;
use scratch::Scratch;
use voprf::blinding::public;

mod issuing;
mod opening;
mod redeeming;

// A station: the epochs that are open, with their keys, and the book of what was spent.
#[derive(Drop)]
pub struct Station<G: Group, B: Book> {
    ring: Ring<G::NonZero>,
    book: B,
}

impl<G: Group, B: Book> Station<G, B> {
    // A station over a book, which it clears. No epoch is open.
    pub fn new(book: B) -> Station<G, B>
        ensures places { places result.ring ≡ None ∷ None ∷ None ∷ None ∷ [] }
        ensures latest { result.ring.latest ≡ 0 }
        ensures book { Cleared (B.Book.meaning book) (B.Book.meaning result.book) }
    {
        let mut book = book;
        book.clear();
        Station {
            ring: Ring::new(),
            book,
        }
    }

    // Opens an epoch under a key, and writes the code of its public key to the front of the outlet.
    // Stays with its opening written out in each clause: a word for it would take the same six arguments.
    pub fn open(
        &mut self,
        scratch: &mut [u8],
        epoch: u16,
        key: &[u8],
        outlet: &mut [u8],
    ) -> Result<usize, StationFault>
        ensures answer { result ≡ counted (published G.Group.model (opening G.Group.model (length scratch.old) (admits self.old.ring epoch) key.now (length outlet.old))) }
        ensures outlet { outlet.new ≡ outlet_after (published G.Group.model (opening G.Group.model (length scratch.old) (admits self.old.ring epoch) key.now (length outlet.old))) outlet.old }
        ensures scratch { scratch.new ≡ replicate (length scratch.old) 0 }
        ensures places { places self.new.ring ≡ places_after (opening G.Group.model (length scratch.old) (admits self.old.ring epoch) key.now (length outlet.old)) epoch (places self.old.ring) }
        ensures latest { self.new.ring.latest ≡ latest_after (opening G.Group.model (length scratch.old) (admits self.old.ring epoch) key.now (length outlet.old)) epoch self.old.ring.latest }
        ensures book { self.new.book ≡ self.old.book }
    {
        let work = Scratch { bytes: scratch };
        let key = admitted_key::<G>(&self.ring, work.bytes.len(), epoch, key, outlet.len())?;
        self.ring.open(epoch, key)?;
        let pk = public::<G>(key).encode();
        let width = pk.as_slice().len();
        outlet[0..width].copy_from_slice(pk.as_slice());
        Ok(width)
    }

    // Closes an open epoch: its pairs leave the book, and the answer is how many they were.
    pub fn close(&mut self, epoch: u16) -> Result<u16, StationFault>
        ensures answer { Closes (key_in (places self.old.ring) epoch) epoch (B.Book.meaning self.old.book) result (B.Book.meaning self.new.book) }
        ensures untouched { Undropped (key_in (places self.old.ring) epoch) self.old.book self.new.book }
        ensures places { places self.new.ring ≡ closed_places (key_in (places self.old.ring) epoch) epoch (places self.old.ring) }
        ensures latest { self.new.ring.latest ≡ self.old.ring.latest }
    {
        let _key = self.ring.key(epoch)?;
        self.ring.close(epoch);
        Ok(self.book.drop_epoch(epoch))
    }

    // Answers a request: writes the reply to the front of the outlet.
    pub fn issue(
        &self,
        scratch: &mut [u8],
        request: &[u8],
        nonce: &[u8],
        outlet: &mut [u8],
    ) -> Result<usize, StationFault>
        ensures answer { result ≡ counted (issue_answer G.Group.model (length scratch.old) (key_in (places self.now.ring)) request.now nonce.now (length outlet.old)) }
        ensures outlet { outlet.new ≡ outlet_after (issue_answer G.Group.model (length scratch.old) (key_in (places self.now.ring)) request.now nonce.now (length outlet.old)) outlet.old }
        ensures scratch { scratch.new ≡ replicate (length scratch.old) 0 }
    {
        let work = Scratch { bytes: scratch };
        let (request, key, nonce) = accept::<G>(
            &self.ring,
            work.bytes.len(),
            request,
            nonce,
            outlet.len(),
        )?;
        let len = reply::<G>(work.bytes, request, key, nonce, outlet)?;
        Ok(len)
    }

    // Redeems a token: its pair is marked as spent.
    pub fn redeem(&mut self, scratch: &mut [u8], token: &[u8]) -> Result<(), StationFault>
        ensures answer { Redeems (redeemable G.Group.model (length scratch.old) (key_in (places self.old.ring)) token.now) (B.Book.meaning self.old.book) result (B.Book.meaning self.new.book) }
        ensures untouched { Unasked (redeemable G.Group.model (length scratch.old) (key_in (places self.old.ring)) token.now) self.old.book self.new.book }
        ensures scratch { scratch.new ≡ replicate (length scratch.old) 0 }
        ensures ring { self.new.ring ≡ self.old.ring }
    {
        let work = Scratch { bytes: scratch };
        let (epoch, nonce) = redeemed_pair::<G>(&self.ring, work.bytes, token)?;
        self.book.mark(epoch, &nonce)?;
        Ok(())
    }

    // How many tokens of open epochs were redeemed.
    pub fn count(&self) -> u16
        ensures { result ≡ size_of (B.Book.meaning self.now.book) }
    {
        self.book.size()
    }
}
