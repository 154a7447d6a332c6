// Refusals. Every call of the part either answers or refuses, and a refusal tells three things: its
// number, the layer that refused, and the item of the batch that it is about.
//
//   1  scratch too short     wire        6  no code of an element     group      5  epoch not open       ring
//   2  wrong length          wire        7  code of the null          group     16  epoch not above      ring
//   3  wrong type            wire        8  no scalar, or zero        group     17  all places open      ring
//   4  wrong count           wire       10  the input maps to null    group     12  key id differs       token
//   9  outlet too short      wire       11  the proof fails           proof     13  authenticator        token
//  14  pair is spent         book       15  no free place             book          differs
//
// Each layer has an enum of its own, whose variants have these numbers. A layer above keeps a fault from below
// whole inside its own enum, so nothing is lost on the way up: the group's inside the batch's, which adds the
// item, and the batch's and the book's inside the station's. `docs/FAULTS.md` has the whole list, with when each is told.
#![tactic(auto)]

ghost use Rattle.std.specs.Prelude.{◌≡◌};
ghost use Rattle.faults.specs.declared.Refusal.{Refusal};
ghost use Rattle.faults.specs.declared.BatchFault.TheVariants.{Wire as BatchWire, Ring as BatchRing, Group as BatchGroup, Item as BatchItem};
ghost use Rattle.faults.specs.declared.StationFault.TheVariants.{Wire as StationWire, Ring as StationRing, Group as StationGroup, Batch as StationBatch, Token as StationToken, Book as StationBook};
ghost use Rattle.faults.specs.Numbers.{wire_tells, group_tells, ring_tells, batch_tells, token_tells, book_tells, station_tells, layer_name, refuses};

// The layers of the part, as a refusal names them.
#[derive(Clone, Copy, PartialEq, Eq, Debug)]
pub enum Layer {
    // lengths, types and counts of what is handed in
    Wire,
    // the epochs that are open
    Ring,
    // elements and scalars
    Group,
    // the batch proof
    Proof,
    // what a token says of itself
    Token,
    // the spent book
    Book,
}

impl Layer {
    // The layer's name, as a report prints it.
    // Stays a `&str`, with no `Display`: a report's line is put together from pieces of text, and formats nothing.
    pub fn name(self) -> &'static str
        ensures { result.now ≡ layer_name self }
    {
        match self {
            Layer::Wire => "wire",
            Layer::Ring => "ring",
            Layer::Group => "group",
            Layer::Proof => "proof",
            Layer::Token => "token",
            Layer::Book => "book",
        }
    }

    // The refusal of this layer with a number, of no item.
    fn refuses(self, number: u8) -> Refusal
        ensures { result ≡ refuses number self }
    {
        Refusal {
            number,
            layer: self,
            item: 0,
        }
    }
}

// What a refusal tells. The item counts from 1, and is 0 where the fault is of no item.
// Stays a number with its 0, and no `Option` of an item: a report prints `item 0` where there is none.
#[derive(Clone, Copy, PartialEq, Eq, Debug)]
pub struct Refusal {
    pub number: u8,
    pub layer: Layer,
    pub item: u8,
}

// A fault of some layer: all of them tell their refusal in the same way.
pub trait Fault: Copy {
    ghost tells: { Self → Refusal };

    fn refusal(self) -> Refusal
        ensures { result ≡ tells self };
}

// What is wrong with the bytes handed in, or with the room for the answer.
#[derive(Clone, Copy, PartialEq, Eq, Debug)]
pub enum WireFault {
    ShortScratch = 1,
    WrongLength = 2,
    WrongType = 3,
    WrongCount = 4,
    ShortOutlet = 9,
}

impl Fault for WireFault {
    ghost tells = { wire_tells };

    fn refusal(self) -> Refusal {
        Layer::Wire.refuses(self as u8)
    }
}

// What is wrong with an element or a scalar.
#[derive(Clone, Copy, PartialEq, Eq, Debug)]
pub enum GroupFault {
    NoElement = 6,
    NullElement = 7,
    NoScalar = 8,
    NullInput = 10,
}

impl Fault for GroupFault {
    ghost tells = { group_tells };

    fn refusal(self) -> Refusal {
        Layer::Group.refuses(self as u8)
    }
}

impl GroupFault {
    // The same fault of an item of a batch; items count from 1.
    pub fn of_item(self, item: u8) -> BatchFault
        ensures { result ≡ BatchItem item self }
    {
        BatchFault::Item { item, fault: self }
    }
}

// Why a pair is not marked.
#[derive(Clone, Copy, PartialEq, Eq, Debug)]
pub enum BookFault {
    Spent = 14,
    Full = 15,
}

impl Fault for BookFault {
    ghost tells = { book_tells };

    fn refusal(self) -> Refusal {
        Layer::Book.refuses(self as u8)
    }
}

// What is wrong with an epoch. To a client, which has no open epochs, an epoch that is 0 or not its
// batch's counts as not open.
#[derive(Clone, Copy, PartialEq, Eq, Debug)]
pub enum RingFault {
    NotOpen = 5,
    NotAbove = 16,
    AllOpen = 17,
}

impl Fault for RingFault {
    ghost tells = { ring_tells };

    fn refusal(self) -> Refusal {
        Layer::Ring.refuses(self as u8)
    }
}

// What is wrong with what a token says of itself.
#[derive(Clone, Copy, PartialEq, Eq, Debug)]
pub enum TokenFault {
    OtherKey = 12,
    OtherAuthenticator = 13,
}

impl Fault for TokenFault {
    ghost tells = { token_tells };

    fn refusal(self) -> Refusal {
        Layer::Token.refuses(self as u8)
    }
}

// What is wrong with a batch: its bytes, its epoch, an element or a scalar of no item, one of an item,
// or its proof.
#[derive(Clone, Copy, PartialEq, Eq, Debug)]
pub enum BatchFault {
    Wire(WireFault),
    Ring(RingFault),
    Group(GroupFault),
    Item { item: u8, fault: GroupFault },
    BadProof,
}

impl Fault for BatchFault {
    ghost tells = { batch_tells };

    fn refusal(self) -> Refusal {
        match self {
            BatchFault::Wire(fault) => fault.refusal(),
            BatchFault::Ring(fault) => fault.refusal(),
            BatchFault::Group(fault) => fault.refusal(),
            BatchFault::Item { item, fault } => Refusal {
                item,
                ..fault.refusal()
            },
            BatchFault::BadProof => Layer::Proof.refuses(11),
        }
    }
}

impl From<WireFault> for BatchFault {
    ghost from_gives = { λ f r. r ≡ BatchWire f };

    fn from(fault: WireFault) -> BatchFault {
        BatchFault::Wire(fault)
    }
}

impl From<RingFault> for BatchFault {
    ghost from_gives = { λ f r. r ≡ BatchRing f };

    fn from(fault: RingFault) -> BatchFault {
        BatchFault::Ring(fault)
    }
}

impl From<GroupFault> for BatchFault {
    ghost from_gives = { λ f r. r ≡ BatchGroup f };

    fn from(fault: GroupFault) -> BatchFault {
        BatchFault::Group(fault)
    }
}

// Why a station refuses.
#[derive(Clone, Copy, PartialEq, Eq, Debug)]
pub enum StationFault {
    Wire(WireFault),
    Ring(RingFault),
    Group(GroupFault),
    Batch(BatchFault),
    Token(TokenFault),
    Book(BookFault),
}

impl Fault for StationFault {
    ghost tells = { station_tells };

    fn refusal(self) -> Refusal {
        match self {
            StationFault::Wire(fault) => fault.refusal(),
            StationFault::Ring(fault) => fault.refusal(),
            StationFault::Group(fault) => fault.refusal(),
            StationFault::Batch(fault) => fault.refusal(),
            StationFault::Token(fault) => fault.refusal(),
            StationFault::Book(fault) => fault.refusal(),
        }
    }
}

impl From<WireFault> for StationFault {
    ghost from_gives = { λ f r. r ≡ StationWire f };

    fn from(fault: WireFault) -> StationFault {
        StationFault::Wire(fault)
    }
}

impl From<RingFault> for StationFault {
    ghost from_gives = { λ f r. r ≡ StationRing f };

    fn from(fault: RingFault) -> StationFault {
        StationFault::Ring(fault)
    }
}

impl From<GroupFault> for StationFault {
    ghost from_gives = { λ f r. r ≡ StationGroup f };

    fn from(fault: GroupFault) -> StationFault {
        StationFault::Group(fault)
    }
}

impl From<BatchFault> for StationFault {
    ghost from_gives = { λ f r. r ≡ StationBatch f };

    fn from(fault: BatchFault) -> StationFault {
        StationFault::Batch(fault)
    }
}

impl From<TokenFault> for StationFault {
    ghost from_gives = { λ f r. r ≡ StationToken f };

    fn from(fault: TokenFault) -> StationFault {
        StationFault::Token(fault)
    }
}

impl From<BookFault> for StationFault {
    ghost from_gives = { λ f r. r ≡ StationBook f };

    fn from(fault: BookFault) -> StationFault {
        StationFault::Book(fault)
    }
}
