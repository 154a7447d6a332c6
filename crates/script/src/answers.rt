// What a command answered, and the line that is printed for it.
ghost use Rattle.std.specs.Prelude.{◌≡◌};
ghost use Rattle.text.specs.Appending.{Appends};
ghost use Rattle.script.specs.Reports.{printed, AnswersAreArguments};

use crate::command::Command;
use commands::Kind;
use faults::Refusal;
use std::alloc::AllocError;
use text::pieces;
use text::pieces::Piece;

#[derive(Drop)]
pub enum Answer {
    // nothing but that it was done
    Done,
    Number(u64),
    // two numbers
    Pair(u64, u64),
    // `yes` or `no`
    Flag(bool),
    Bytes(Vec<u8>),
    // the group that was chosen, which is not printed
    Chose(Kind),
}

// What a command answered, or how it was refused.
pub type Outcome = Result<Answer, Refusal>;

// A command that was carried out, with its outcome.
#[derive(Drop)]
pub struct Report {
    pub command: Command,
    pub outcome: Outcome,
}

impl Report {
    // Adds the report's line to the end of `line`, without a line end.
    pub fn write(&self, line: &mut Vec<u8>) -> Result<(), AllocError>
        ensures { Appends (printed self.now) line.old line.new result }
    {
        // Stays a list of pieces: `write!` says what it wrote only where it succeeds, and this call says that the line
        // is as it was where memory ends.
        let word = Piece::Text(self.command.word());
        match &self.outcome {
            Ok(Answer::Done | Answer::Chose(_)) => {
                pieces::write(&[word, Piece::Text(": ok")], line)
            }
            Ok(Answer::Number(number)) => {
                pieces::write(&[word, Piece::Text(": ok "), Piece::Number(*number)], line)
            }
            Ok(Answer::Pair(first, second)) => {
                let parts = [
                    word,
                    Piece::Text(": ok "),
                    Piece::Number(*first),
                    Piece::Text(" "),
                    Piece::Number(*second),
                ];
                pieces::write(&parts, line)
            }
            Ok(Answer::Flag(yes)) => {
                let flag = if *yes { "yes" } else { "no" };
                pieces::write(&[word, Piece::Text(": ok "), Piece::Text(flag)], line)
            }
            Ok(Answer::Bytes(bytes)) => {
                let bytes = bytes.as_slice();
                let shown = if bytes.is_empty() {
                    Piece::Text("-")
                } else {
                    Piece::Bytes(bytes)
                };
                pieces::write(&[word, Piece::Text(": ok "), shown], line)
            }
            Err(refusal) => {
                let parts = [
                    word,
                    Piece::Text(": fault "),
                    Piece::Number(u64::from(refusal.number)),
                    Piece::Text(" "),
                    Piece::Text(refusal.layer.name()),
                    Piece::Text(" item "),
                    Piece::Number(u64::from(refusal.item)),
                ];
                pieces::write(&parts, line)
            }
        }
    }
}

// Bytes that are printed can be written in a later line, and stand for themselves there.
pub fn answers_are_arguments()
    ensures { AnswersAreArguments }
{}
