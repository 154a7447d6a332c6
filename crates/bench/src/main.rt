// The bench program: reads a script from standard input, carries out each line and prints one line for it.
// Testers of a release write such scripts; docs/BENCH.md has their words.
//
//   standard input --lines--> script::session --reports--> standard output
//                                 |      |
//                                 +-- desk: the lone book, from its `book` line to the next
//                                 +-- counter: the client, with the batch that is pending, and the station
//
// At the first line that is no command it says on standard error which line and word are wrong, and ends
// with status 1. A batch that is pending at the end is abandoned there. Everything but the input and the
// output is in `script`, `desk`, `counter` and `text`.
#![tactic(auto)]

use book::Layout;
use chained::{Chained, ChainedBook};
use client::Pending;
use counter::Counter;
use desk::{Desk, Empty};
use faults::{Fault, WireFault};
use script::answers::{Answer, Outcome, Report};
use script::command::Command;
use script::errors::LineFault;
use script::reading::Shelf;
use script::session::Session;
use script::tasks::Task;
use std::io;
use std::io::{BufRead, BufReader, ErrorKind, Write};
use tape::{Tape, TapeBook};

// Prints the line of a report.
fn print(rt: &HostRuntime, report: &Report) -> io::Result<()> {
    let mut line = Vec::new(rt.alloc());
    report.write(&mut line)?;
    line.push(b'\n')?;
    rt.stdout().write_all(line.as_slice())
}

// What the lines so far have kept, chosen and set. A batch that is pending cannot be let go, so a state has no
// `Drop`: `end` takes it apart.
struct State {
    session: Session,
    counter: Counter,
    pending: Option<Pending>,
}

// What a line comes to: it was carried out, or it asks for a book.
#[derive(Drop)]
enum Turn {
    Carried(Option<Report>),
    Book(Shelf, u64),
}

// Carries out a line; what it asks of a book, the desk answers, and what it asks of the client or of a
// station, the counter does.
fn take_turn<D: Desk>(
    rt: &HostRuntime,
    state: &mut State,
    desk: &mut D,
    line: &[u8],
) -> Result<Turn, LineFault> {
    let Some(order) = state.session.order(line)? else {
        return Ok(Turn::Carried(None));
    };
    let command = order.command;
    match order.task {
        Task::Book { shelf, length } => Ok(Turn::Book(shelf, length)),
        Task::Call { call } => {
            let outcome = desk.answer(&call, rt.alloc())?;
            state.session.settle(line, &outcome)?;
            Ok(Turn::Carried(Some(Report { command, outcome })))
        }
        Task::Protocol { action } => {
            let kind = state.session.kind();
            let outcome = state
                .counter
                .answer(kind, action, &mut state.pending, rt.alloc())?;
            state.session.settle(line, &outcome)?;
            Ok(Turn::Carried(Some(Report { command, outcome })))
        }
        Task::Group { .. } => {
            state.counter.leave();
            Ok(Turn::Carried(state.session.carry_out(line)?))
        }
        _ => Ok(Turn::Carried(state.session.carry_out(line)?)),
    }
}

// Says which line is no command, and why.
fn no_command(rt: &HostRuntime, at: usize, fault: LineFault) -> io::Result<()> {
    let number = at.saturating_add(1);
    eprintln!(rt; "line {number}: {fault}")?;
    Err(io::Error::from(ErrorKind::InvalidInput))
}

// Carries out the lines from a place on, up to the next that asks for a book; answers where that is.
fn serve<D: Desk + Drop>(
    rt: &HostRuntime,
    state: &mut State,
    lines: &[String],
    from: usize,
    desk: D,
) -> io::Result<usize> {
    let mut desk = desk;
    for (i, line) in lines.iter().enumerate().skip(from) {
        match take_turn(rt, state, &mut desk, line.as_bytes()) {
            Ok(Turn::Carried(Some(report))) => print(rt, &report)?,
            Ok(Turn::Carried(None)) => {}
            Ok(Turn::Book(_, _)) => return Ok(i),
            Err(fault) => no_command(rt, i, fault)?,
        }
    }
    Ok(lines.len())
}

// Prints the capacity of a book, or why there is none.
fn print_book(rt: &HostRuntime, capacity: Result<u16, WireFault>) -> io::Result<()> {
    let outcome: Outcome = match capacity {
        Ok(capacity) => Ok(Answer::Number(u64::from(capacity))),
        Err(fault) => Err(fault.refusal()),
    };
    print(
        rt,
        &Report {
            command: Command::Book,
            outcome,
        },
    )
}

// Makes the book that a line asks for, and carries out the lines below it.
// Stays an arm for each kind: as a piece of `Work` the lines would know a book by its meaning alone, and a script
// asks for its bytes; and a `Layout` cannot name the type of its book, since that has a lifetime.
fn open(
    rt: &HostRuntime,
    state: &mut State,
    lines: &[String],
    at: usize,
    shelf: Shelf,
    length: usize,
) -> io::Result<usize> {
    let mut memory = vec![in rt.alloc(); 0u8; length]?;
    let memory = memory.as_mut_slice();
    let below = at.saturating_add(1);
    match shelf {
        Shelf::Tape => {
            let capacity = Tape::capacity_in(memory.len());
            print_book(rt, capacity)?;
            match capacity {
                Ok(capacity) => { serve(rt, state, lines, below, TapeBook::over(memory, capacity)) }
                Err(_) => serve(rt, state, lines, below, Empty),
            }
        }
        Shelf::Chained => {
            let capacity = Chained::capacity_in(memory.len());
            print_book(rt, capacity)?;
            match capacity {
                Ok(capacity) => {
                    serve(rt, state, lines, below, ChainedBook::over(memory, capacity))
                }
                Err(_) => serve(rt, state, lines, below, Empty),
            }
        }
    }
}

// Reads the lines of the script, up to the first that cannot be read.
fn read_lines(rt: &HostRuntime, lines: &mut Vec<String>) -> io::Result<()> {
    for text in BufReader::new(rt.alloc(), rt.stdin())?.lines(rt.alloc()) {
        lines.push(text?)?;
    }
    Ok(())
}

// Carries out the lines, book after book.
// Stays with the place of the next line handed back: a book borrows memory that ends with it, so the lines below it
// are carried out inside `open`.
fn carry_out(rt: &HostRuntime, state: &mut State, lines: &[String]) -> io::Result<()> {
    let mut next = serve(rt, state, lines, 0, Empty)?;
    for (i, line) in lines.iter().enumerate() {
        if i == next {
            if let Ok(Some(order)) = state.session.order(line.as_bytes()) {
                if let Task::Book { shelf, length } = order.task {
                    next = open(rt, state, lines, i, shelf, length as usize)?;
                }
            }
        }
    }
    Ok(())
}

// Gives up a batch that is still pending, and says so.
fn end(rt: &HostRuntime, state: State) -> io::Result<()> {
    let State {
        session: _,
        counter: _,
        pending,
    } = state;
    if let Some(batch) = pending {
        let (epoch, count) = batch.abandon();
        eprintln!(rt;
            "at the end: a batch of epoch {epoch} with {count} items is pending, and is abandoned"
        )?;
    }
    Ok(())
}

fn main(rt: HostRuntime) -> io::Result<()> {
    let mut lines = Vec::new(rt.alloc());
    let read = read_lines(&rt, &mut lines);
    let mut state = State {
        session: Session::new(rt.alloc()),
        counter: Counter::new(),
        pending: None,
    };
    let carried = carry_out(&rt, &mut state, lines.as_slice());
    end(&rt, state)?;
    carried?;
    if let Err(error) = read {
        let number = lines.len().saturating_add(1);
        eprintln!(rt; "line {number}: {error}")?;
        return Err(error);
    }
    Ok(())
}
