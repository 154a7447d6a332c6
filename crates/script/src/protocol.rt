// What a line asks of the client or of a station: the words of the protocol, and what follows them.
ghost use Rattle.std.specs.Prelude.{◌≡◌, ◌<◌};
ghost use Rattle.text.specs.Lines.{left};
ghost use Rattle.script.specs.Kept.{holds};
ghost use Rattle.script.specs.Protocol.{protocol_word, acted, Acts};

use crate::errors::LineFault;
use crate::reading::{Arguments, LONGEST, Shelf};

#[derive(Clone, Copy, PartialEq, Eq, Debug)]
pub enum Word {
    // `scratch LENGTH` sets the length of the scratch that the calls below are lent
    Scratch,
    // `outlet LENGTH` sets the length of the outlet; `outlet full` makes it one that every answer fits
    Outlet,
    // `blind EPOCH PK SEEDS BLINDS` answers the request of a batch, which is pending from then on
    Blind,
    // `finish PK SEEDS BLINDS REPLY` ends the pending batch, and answers its tokens
    Finish,
    // `abandon` gives the pending batch up, and answers its epoch and how many items it has
    Abandon,
    // `station KIND LENGTH` makes a station over a fresh book of so many bytes
    Station,
    // `open EPOCH KEY` opens an epoch of the station, and answers its public key
    Open,
    // `close EPOCH` ends an epoch, and answers how many of its tokens were spent
    Close,
    // `issue REQUEST NONCE` answers the reply to a request
    Issue,
    // `redeem TOKEN` takes a token once
    Redeem,
    // `count` answers how many tokens of open epochs are spent
    Count,
}

impl Word {
    // The word itself.
    pub fn text(self) -> &'static str
        ensures { result.now ≡ protocol_word self }
    {
        match self {
            Word::Scratch => "scratch",
            Word::Outlet => "outlet",
            Word::Blind => "blind",
            Word::Finish => "finish",
            Word::Abandon => "abandon",
            Word::Station => "station",
            Word::Open => "open",
            Word::Close => "close",
            Word::Issue => "issue",
            Word::Redeem => "redeem",
            Word::Count => "count",
        }
    }
}

// What is asked of a station.
#[derive(Drop)]
pub enum Service {
    Open { epoch: u16, key: Vec<u8> },
    Close { epoch: u16 },
    Issue { request: Vec<u8>, nonce: Vec<u8> },
    Redeem { token: Vec<u8> },
    Count,
}

// What a line asks, with its words read.
#[derive(Drop)]
pub enum Action {
    Scratch {
        length: u64,
    },
    Outlet {
        length: u64,
    },
    Blind {
        epoch: u16,
        pk: Vec<u8>,
        seeds: Vec<u8>,
        blinds: Vec<u8>,
    },
    Finish {
        pk: Vec<u8>,
        seeds: Vec<u8>,
        blinds: Vec<u8>,
        reply: Vec<u8>,
    },
    Abandon,
    // a station is to be made
    Station {
        shelf: Shelf,
        length: u64,
    },
    // a call on the station
    Serve {
        service: Service,
    },
}

// Reads the words after a word of the protocol: as many as it needs, and no more.
pub fn read(word: Word, mut arguments: Arguments<'_>) -> Result<Action, LineFault>
    requires { arguments.next < 5 }
    ensures { Acts (acted (holds arguments.entry.names.now) word arguments.entry.next (left arguments.entry.words)) result }
{
    let action = match word {
        Word::Scratch => Action::Scratch {
            length: arguments.number(LONGEST)?,
        },
        Word::Outlet => Action::Outlet {
            length: arguments.room()?,
        },
        Word::Blind => Action::Blind {
            epoch: arguments.epoch()?,
            pk: arguments.bytes()?,
            seeds: arguments.bytes()?,
            blinds: arguments.bytes()?,
        },
        Word::Finish => Action::Finish {
            pk: arguments.bytes()?,
            seeds: arguments.bytes()?,
            blinds: arguments.bytes()?,
            reply: arguments.bytes()?,
        },
        Word::Abandon => Action::Abandon,
        Word::Station => Action::Station {
            shelf: arguments.shelf()?,
            length: arguments.number(LONGEST)?,
        },
        Word::Open => Action::Serve {
            service: Service::Open {
                epoch: arguments.epoch()?,
                key: arguments.bytes()?,
            },
        },
        Word::Close => Action::Serve {
            service: Service::Close {
                epoch: arguments.epoch()?,
            },
        },
        Word::Issue => {
            let request = arguments.bytes()?;
            let nonce = arguments.bytes()?;
            Action::Serve {
                service: Service::Issue { request, nonce },
            }
        }
        Word::Redeem => Action::Serve {
            service: Service::Redeem {
                token: arguments.bytes()?,
            },
        },
        Word::Count => Action::Serve {
            service: Service::Count,
        },
    };
    arguments.end()?;
    Ok(action)
}
