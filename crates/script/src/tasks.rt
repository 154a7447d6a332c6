// What a line asks for: its command, with its words read.
ghost use Rattle.std.specs.Prelude.{◌≡◌, ◌+◌};
ghost use Rattle.std.specs.Option.{option_map};
ghost use Rattle.text.specs.Lines.{left};
ghost use Rattle.script.specs.Kept.{holds};
ghost use Rattle.script.specs.Statements.{command_at};
ghost use Rattle.script.specs.Tasks.{asked, Asks};

use crate::command::Command;
use crate::errors::LineFault;
use crate::names::Names;
use crate::protocol::Action;
use crate::reading::{Arguments, LONGEST};
use crate::statements::Statement;
use crate::{protocol, statements};
use commands::Kind;
use std::alloc::Global;

// the kind of book in a task, which callers name beside it
pub use crate::reading::Shelf;

#[derive(Drop)]
pub enum Task {
    Digest {
        input: Vec<u8>,
    },
    Group {
        kind: Kind,
    },
    Decode {
        code: Vec<u8>,
    },
    Map {
        bytes: Vec<u8>,
    },
    Base {
        scalar: Vec<u8>,
    },
    Input {
        epoch: u16,
        nonce: Vec<u8>,
        context: Vec<u8>,
        pk: Vec<u8>,
    },
    Direct {
        key: Vec<u8>,
        input: Vec<u8>,
    },
    // a lone book is to be made
    Book {
        shelf: Shelf,
        length: u64,
    },
    // a call on the book
    Call {
        call: Call,
    },
    // a call on the client or on a station
    Protocol {
        action: Action,
    },
}

// What is asked of a book.
#[derive(Drop)]
pub enum Call {
    Mark { epoch: u16, nonce: Vec<u8> },
    Has { epoch: u16, nonce: Vec<u8> },
    Drop { epoch: u16 },
    Size,
    Clear,
    Image,
}

// Reads the words after the command: as many as it needs, and no more.
pub fn read(statement: Statement<'_>, names: &Names, heap: Global) -> Result<Task, LineFault>
    ensures { Asks (asked (holds names.now) statement.entry.command (command_at (option_map (λ x. x.now) statement.entry.name) + 1) (left statement.entry.arguments)) result }
{
    let next = statements::command_at(statement.name) + 1;
    let mut arguments = Arguments::new(statement.arguments, next, names, heap);
    let task = match statement.command {
        Command::Digest => Task::Digest {
            input: arguments.bytes()?,
        },
        Command::Group => Task::Group {
            kind: arguments.kind()?,
        },
        Command::Decode => Task::Decode {
            code: arguments.bytes()?,
        },
        Command::Map => Task::Map {
            bytes: arguments.bytes()?,
        },
        Command::Base => Task::Base {
            scalar: arguments.bytes()?,
        },
        Command::Input => Task::Input {
            epoch: arguments.epoch()?,
            nonce: arguments.bytes()?,
            context: arguments.bytes()?,
            pk: arguments.bytes()?,
        },
        Command::Direct => {
            let key = arguments.bytes()?;
            let input = arguments.bytes()?;
            Task::Direct { key, input }
        }
        Command::Book => Task::Book {
            shelf: arguments.shelf()?,
            length: arguments.number(LONGEST)?,
        },
        Command::Mark => Task::Call {
            call: Call::Mark {
                epoch: arguments.epoch()?,
                nonce: arguments.bytes()?,
            },
        },
        Command::Has => Task::Call {
            call: Call::Has {
                epoch: arguments.epoch()?,
                nonce: arguments.bytes()?,
            },
        },
        Command::Drop => Task::Call {
            call: Call::Drop {
                epoch: arguments.epoch()?,
            },
        },
        Command::Size => Task::Call { call: Call::Size },
        Command::Clear => Task::Call { call: Call::Clear },
        Command::Image => Task::Call { call: Call::Image },
        // which reads the words to the end of the line itself
        Command::Protocol(word) => {
            let action = protocol::read(word, arguments)?;
            return Ok(Task::Protocol { action });
        }
    };
    arguments.end()?;
    Ok(task)
}
