// A script that is carried out line by line.
ghost use Rattle.std.specs.Prelude.{◌≡◌, ℕ, List, Some, None, Ok};
ghost use Rattle.commands.specs.Calls.{coded};
ghost use Rattle.commands.specs.declared.Kind.TheVariants.{Res2039};
ghost use Rattle.faults.specs.Numbers.{batch_tells};
ghost use Rattle.text.specs.Lines.{line_words};
ghost use Rattle.script.specs.Kept.{holds};
ghost use Rattle.script.specs.Reports.{outcome_of, bytes};
ghost use Rattle.script.specs.Sessions.{performed, answered, chosen, Answers, Stores, Settled, Carries, Orders};
ghost use Rattle.script.specs.Statements.{statement};
ghost use Rattle.script.specs.Tasks.{asked_of};

use crate::answers::{Answer, Outcome, Report};
use crate::command::Command;
use crate::errors::LineFault;
use crate::names::Names;
use crate::tasks::Task;
use crate::{statements, tasks};
use commands::Kind;
use faults::{BatchFault, Fault};
use numbers::Code;
use std::alloc::Global;

// A command, and what its line asks.
#[derive(Drop)]
pub struct Order {
    pub command: Command,
    pub task: Task,
}

// What a script has kept and chosen so far, and where it takes memory from.
#[derive(Drop)]
pub struct Session {
    heap: Global,
    names: Names,
    // the group that was chosen last
    kind: Kind,
}

impl Session {
    pub fn new(heap: Global) -> Session
        ensures names { (name : List ℕ) → holds result.names name ≡ None }
        ensures group { result.kind ≡ Res2039 }
    {
        Session {
            heap,
            names: Names::new(heap),
            kind: Kind::Res2039,
        }
    }

    // The group that was chosen last.
    pub fn kind(&self) -> Kind
        ensures { result ≡ self.now.kind }
    {
        self.kind
    }

    // Carries out a line, and answers its report; none, where the line has no words.
    pub fn carry_out(&mut self, line: &[u8]) -> Result<Option<Report>, LineFault>
        ensures { Carries (line_words line.now) (holds self.old.names) (holds self.new.names) self.old.kind self.new.kind result }
    {
        let Some(statement) = statements::parse(line)? else {
            return Ok(None);
        };
        let task = tasks::read(statement, &self.names, self.heap)?;
        let outcome = self.perform(task)?;
        if let Some(name) = statement.name {
            self.keep(name, &outcome)?;
        }
        self.kind = next_kind(self.kind, &outcome);
        Ok(Some(Report {
            command: statement.command,
            outcome,
        }))
    }

    // What a line asks, with its command; none, where it has no words.
    pub fn order(&self, line: &[u8]) -> Result<Option<Order>, LineFault>
        ensures { Orders (line_words line.now) (holds self.now.names) result }
    {
        let Some(statement) = statements::parse(line)? else {
            return Ok(None);
        };
        let task = tasks::read(statement, &self.names, self.heap)?;
        Ok(Some(Order {
            command: statement.command,
            task,
        }))
    }

    // Keeps what a book, the client or a station answered to a line, where the line has a name for it.
    pub fn settle(&mut self, line: &[u8], outcome: &Outcome) -> Result<(), LineFault>
        ensures group { self.new.kind ≡ self.old.kind }
        ensures names { Settled (statement (line_words line.now)) (outcome_of outcome.now) (holds self.old.names) (holds self.new.names) result }
    {
        let Some(said) = statements::parse(line)? else {
            return Ok(());
        };
        match said.name {
            Some(name) => self.keep(name, outcome),
            None => Ok(()),
        }
    }

    // What a task answers, or how it is refused.
    fn perform(&self, task: Task) -> Result<Outcome, LineFault>
        ensures { Answers (performed self.now.kind (asked_of task)) result }
    {
        let kind = self.kind;
        match task {
            Task::Digest { input } => self.bytes(digest::digest(input.as_slice())),
            Task::Group { kind } => Ok(Ok(Answer::Chose(kind))),
            Task::Decode { code } => {
                let decoded = kind.decode(code.as_slice());
                Ok(
                    decoded
                        .map(|()| Answer::Done)
                        .map_err(|fault| fault.refusal()),
                )
            }
            Task::Map { bytes } => self.code(kind.map(bytes.as_slice())),
            Task::Base { scalar } => self.code(kind.base(scalar.as_slice())),
            Task::Input {
                epoch,
                nonce,
                context,
                pk,
            } => self.bytes(kind.input(epoch, nonce.as_slice(), context.as_slice(), pk.as_slice())),
            Task::Direct { key, input } => {
                self.bytes(kind.direct(key.as_slice(), input.as_slice()))
            }
            Task::Book { .. } | Task::Call { .. } => Err(LineFault::NoBook),
            Task::Protocol { .. } => Err(LineFault::NoStation),
        }
    }

    // An answer of bytes, or the refusal of a fault.
    fn bytes<const N: usize, F: Fault>(
        &self,
        answer: Result<[u8; N], F>,
    ) -> Result<Outcome, LineFault>
        ensures { Answers (Ok (answered bytes F.tells answer)) result }
    {
        match answer {
            Ok(bytes) => self.copied(&bytes),
            Err(fault) => Ok(Err(fault.refusal())),
        }
    }

    // The same of a code.
    fn code(&self, answer: Result<Code, BatchFault>) -> Result<Outcome, LineFault>
        ensures { Answers (Ok (answered bytes batch_tells (coded answer))) result }
    {
        match answer {
            Ok(code) => self.copied(code.as_slice()),
            Err(fault) => Ok(Err(fault.refusal())),
        }
    }

    // An answer of bytes, which are copied.
    fn copied(&self, answer: &[u8]) -> Result<Outcome, LineFault>
        ensures { Answers (Ok (Ok (bytes answer.now))) result }
    {
        Ok(Ok(Answer::Bytes(Vec::from_slice(self.heap, answer)?)))
    }

    // Keeps bytes that were answered under the name.
    fn keep(&mut self, name: &[u8], outcome: &Outcome) -> Result<(), LineFault>
        ensures group { self.new.kind ≡ self.old.kind }
        ensures names { Stores (Some name.now) (outcome_of outcome.now) (holds self.old.names) (holds self.new.names) result }
    {
        if let Ok(Answer::Bytes(bytes)) = outcome {
            let name = Vec::from_slice(self.heap, name)?;
            let bytes = Vec::from_slice(self.heap, bytes.as_slice())?;
            self.names.keep(name, bytes)?;
        }
        Ok(())
    }
}

// The group for the lines below: the one that was chosen, or that of before.
fn next_kind(kind: Kind, outcome: &Outcome) -> Kind
    ensures { result ≡ chosen (outcome_of outcome.now) kind }
{
    match outcome {
        Ok(Answer::Chose(kind)) => *kind,
        _ => kind,
    }
}
