// The parts of a line.
ghost use Rattle.std.specs.Prelude.{◌≡◌, ◌<◌};
ghost use Rattle.std.specs.Option.{option_map};
ghost use Rattle.text.specs.Lines.{left, line_words};
ghost use Rattle.script.specs.Statements.{command_at, calling, naming, statement, parsed};

use crate::command::Command;
use crate::errors::LineFault;
use text::class::Class;
use text::words::Words;

// The mark between a name and a command.
const KEPT_AS: &[u8] = b"=";

// `COMMAND ..`, or `NAME = COMMAND ..`
#[derive(Clone, Copy)]
pub struct Statement<'a> {
    // where to keep what the command answers
    pub name: Option<&'a [u8]>,
    pub command: Command,
    // the words after the command
    pub arguments: Words<'a>,
}

// Which word of the line is the command: the first, or the third where there is a name.
pub fn command_at(name: Option<&[u8]>) -> usize
    ensures place { result ≡ command_at (option_map (λ x. x.now) name.entry) }
    ensures early { result < 4 }
{
    if name.is_some() { 3 } else { 1 }
}

// What the line says; nothing, where it has no words.
pub fn parse(line: &[u8]) -> Result<Option<Statement<'_>>, LineFault>
    ensures { parsed result ≡ statement (line_words line.now) }
{
    let mut words = Words::of(line);
    let Some(first) = words.take() else {
        return Ok(None);
    };
    let mut after = words;
    let Some(second) = after.take() else {
        return call(None, first, words);
    };
    if second == KEPT_AS {
        return named(first, after);
    }
    call(None, first, words)
}

// What follows a name and its mark.
fn named<'a>(name: &'a [u8], mut words: Words<'a>) -> Result<Option<Statement<'a>>, LineFault>
    ensures { parsed result ≡ naming name.now (left words.entry) }
{
    if Class::Name.run(name) < name.len() {
        return Err(LineFault::BadName { word: 1 });
    }
    let word = words.take().ok_or(LineFault::MissingWord { word: 3 })?;
    call(Some(name), word, words)
}

// The command that a word calls, with the words after it.
fn call<'a>(
    name: Option<&'a [u8]>,
    word: &'a [u8],
    arguments: Words<'a>,
) -> Result<Option<Statement<'a>>, LineFault>
    ensures { parsed result ≡ calling (option_map (λ x. x.now) name.entry) word.now (left arguments.entry) }
{
    let command = Command::of(word).ok_or(LineFault::UnknownCommand {
        word: command_at(name),
    })?;
    Ok(Some(Statement {
        name,
        command,
        arguments,
    }))
}
