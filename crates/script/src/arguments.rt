// The words after a command, as what they stand for.
ghost use Rattle.std.specs.Prelude.{◌≡◌};
ghost use Rattle.script.specs.Arguments.{misreading, argument, recalled, picked, Adds, Picks};
ghost use Rattle.script.specs.Kept.{holds};

use crate::errors::LineFault;
use crate::names::Names;
use text::class::Class;
use text::hex::HexFault;
use text::{decimal, hex};

// The empty string, as a script writes it.
const NOTHING: &[u8] = b"-";

// The length of a token.
const TOKEN: usize = 132;

// Adds the bytes that a word stands for to the end of `bytes`: `-` is the empty string, `$NAME` what is kept
// under the name, `$NAME.2` the second token of that, and anything else is hexadecimal. The word is the
// line's word number `at`.
pub fn read(word: &[u8], at: usize, names: &Names, bytes: &mut Vec<u8>) -> Result<(), LineFault>
    ensures { Adds (argument (holds names.now) at word.now) bytes.old bytes.new result }
{
    if word == NOTHING {
        return Ok(());
    }
    if let [b'$', text @ ..] = word {
        return recall(text, at, names, bytes);
    }
    hex::read(word, bytes).map_err(|fault| misread(fault, at))
}

// What is wrong with a line in which a word is not read as hexadecimal.
fn misread(fault: HexFault, at: usize) -> LineFault
    ensures { result ≡ misreading at fault }
{
    match fault {
        HexFault::Wrong { place } => LineFault::WrongDigit { word: at, place },
        HexFault::Memory => LineFault::Memory,
    }
}

// Adds what is kept under a name, or a token of it.
fn recall(text: &[u8], at: usize, names: &Names, bytes: &mut Vec<u8>) -> Result<(), LineFault>
    ensures { Adds (recalled (holds names.now) at text.now) bytes.old bytes.new result }
{
    let (name, rest) = text.split_at(Class::Name.run(text));
    let kept = names.find(name).ok_or(LineFault::UnknownName { word: at })?;
    let part = pick(kept, rest, at)?;
    bytes.extend_from_slice(part)?;
    Ok(())
}

// All of what is kept, or, after a dot, the token of that number.
fn pick<'a>(kept: &'a [u8], rest: &[u8], at: usize) -> Result<&'a [u8], LineFault>
    ensures { Picks (picked at kept.now rest.now) result }
{
    if rest.is_empty() {
        return Ok(kept);
    }
    let [b'.', number @ ..] = rest else {
        return Err(LineFault::UnknownName { word: at });
    };
    let tokens = (kept.len() / TOKEN) as u64;
    let number = decimal::read(number, tokens).map_err(|_| LineFault::NoToken { word: at })?;
    let before = number
        .checked_sub(1)
        .ok_or(LineFault::NoToken { word: at })?;
    let start = before as usize * TOKEN;
    Ok(&kept[start..start + TOKEN])
}
