// The ring: the epochs that are open, at most four, each with its key.
//
//   open e  --> a free place has (e, key)      close e  --> the place is free again
//
// Epochs only rise: one that was opened is never opened a second time, so a key is an epoch's for good. The
// type of keys is the group's type of scalars that are not zero, so nobody who reads the ring tests a key.
#![tactic(auto)]

ghost use Rattle.std.specs.Prelude.{◌≡◌, [], ◌∷◌, None, Ok, Err};
ghost use Rattle.std.specs.Option.{ok_or};
ghost use Rattle.faults.specs.declared.RingFault.TheVariants.{NotOpen};
ghost use Rattle.ring.specs.Places.{places, held as held_in, freed, key_in, closed, admits, places_after, latest_after};
ghost use Rattle.ring.specs.Laws.{RingLaws};

use faults::RingFault;

// An open epoch and its key.
#[derive(Clone, Copy)]
pub struct Epoch<K> {
    pub number: u16,
    pub key: K,
}

// Four places, each free or with an open epoch, and the highest epoch that was ever opened, 0 at first.
// Stays four fields: an array `[Option<Epoch<K>>; 4]` is proved here, but then each caller that is generic over the
// group, as `history::run`, has to show that a station fits in memory, which only a new `requires` of it could say.
#[derive(Clone, Copy)]
pub struct Ring<K> {
    first: Option<Epoch<K>>,
    second: Option<Epoch<K>>,
    third: Option<Epoch<K>>,
    fourth: Option<Epoch<K>>,
    latest: u16,
}

// The key that a place has for an epoch.
fn held<K: Copy>(place: Option<Epoch<K>>, epoch: u16) -> Option<K>
    ensures { result ≡ held_in place epoch }
{
    place
        .filter(|open| open.number == epoch)
        .map(|open| open.key)
}

// The place without an epoch.
fn without<K: Copy>(place: Option<Epoch<K>>, epoch: u16) -> Option<Epoch<K>>
    ensures { result ≡ freed epoch place }
{
    place.filter(|open| open.number != epoch)
}

impl<K: Copy> Ring<K> {
    // No epoch is open, and none was.
    pub fn new() -> Ring<K>
        ensures places { places result ≡ None ∷ None ∷ None ∷ None ∷ [] }
        ensures latest { result.latest ≡ 0 }
    {
        Ring {
            first: None,
            second: None,
            third: None,
            fourth: None,
            latest: 0,
        }
    }

    // The key of an open epoch.
    pub fn key(&self, epoch: u16) -> Result<K, RingFault>
        ensures { result ≡ ok_or (key_in (places self.now) epoch) NotOpen }
    {
        held(self.first, epoch)
            .or(held(self.second, epoch))
            .or(held(self.third, epoch))
            .or(held(self.fourth, epoch))
            .ok_or(RingFault::NotOpen)
    }

    // Whether an epoch may be opened: it must be above all that were opened before, and a place be free.
    pub fn admit(&self, epoch: u16) -> Result<(), RingFault>
        ensures { result ≡ admits self.now epoch }
    {
        if epoch <= self.latest {
            return Err(RingFault::NotAbove);
        }
        if self.first.is_some()
            && self.second.is_some()
            && self.third.is_some()
            && self.fourth.is_some()
        {
            return Err(RingFault::AllOpen);
        }
        Ok(())
    }

    // Opens an epoch, or says why not.
    pub fn open(&mut self, epoch: u16, key: K) -> Result<(), RingFault>
        ensures answer { result ≡ admits self.old epoch }
        ensures places { places self.new ≡ places_after result (record { number = epoch; key = key }) (places self.old) }
        ensures latest { self.new.latest ≡ latest_after result epoch self.old.latest }
    {
        self.admit(epoch)?;
        let open = Some(Epoch { number: epoch, key });
        self.latest = epoch;
        if self.first.is_none() {
            self.first = open;
        } else if self.second.is_none() {
            self.second = open;
        } else if self.third.is_none() {
            self.third = open;
        } else {
            self.fourth = open;
        }
        Ok(())
    }

    // Closes an epoch; one that is not open stays so.
    pub fn close(&mut self, epoch: u16)
        ensures places { places self.new ≡ closed epoch (places self.old) }
        ensures latest { self.new.latest ≡ self.old.latest }
    {
        self.first = without(self.first, epoch);
        self.second = without(self.second, epoch);
        self.third = without(self.third, epoch);
        self.fourth = without(self.fourth, epoch);
    }
}

// What opening and closing do, whatever the places are.
pub fn ring_laws_hold<K: Copy>()
    ensures { RingLaws K }
{}
