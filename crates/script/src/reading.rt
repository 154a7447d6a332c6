// The words after a command, read one after another: bytes, numbers and names.
ghost use Rattle.std.specs.Prelude.{◌≡◌, ◌<◌};
ghost use Rattle.text.specs.Decimals.{numeral};
ghost use Rattle.text.specs.Lines.{left};
ghost use Rattle.script.specs.Kept.{holds};
ghost use Rattle.script.specs.Reading.{at_end, as_number, first_number, first_room, first_shelf, first_kind, kind_at, shelf_and_length, shelf_name, shelf_of, Brings, Counts, Kinds, Numbers, Reads, Rooms, Shelves, Splits, Takes, One, Two, Three, Four};

use crate::arguments;
use crate::errors::LineFault;
use crate::names::Names;
use commands::Kind;
use std::alloc::Global;
use text::decimal;
use text::words::Words;

// The kinds of book.
#[derive(Clone, Copy, PartialEq, Eq, Debug)]
pub enum Shelf {
    Chained,
    Tape,
}

// All the kinds.
const SHELVES: [Shelf; 2] = [Shelf::Chained, Shelf::Tape];

impl Shelf {
    // The kind of this name.
    pub fn of(word: &[u8]) -> Option<Shelf>
        ensures { result ≡ shelf_of word.now }
    {
        SHELVES
            .iter()
            .copied()
            .find(|shelf| word == shelf.name().as_bytes())
    }

    // The name of the kind.
    fn name(self) -> &'static str
        ensures { result.now ≡ shelf_name self }
    {
        match self {
            Shelf::Chained => "chained",
            Shelf::Tape => "tape",
        }
    }
}

// The most bytes that a book, a scratch or an outlet has in a script.
pub const LONGEST: u64 = 65536;

// An outlet that every answer fits: the tokens of a whole batch, 16 of 132 bytes.
pub const ROOM: u64 = 2112;

const FULL: &[u8] = b"full";

// The next word, or what is wrong with a line in which it is missing.
fn next_word<'a>(words: &mut Words<'a>, at: usize) -> Result<&'a [u8], LineFault>
    ensures { Splits at (left words.old) (left words.new) result }
{
    words.take().ok_or(LineFault::MissingWord { word: at })
}

// The number that word number `at` writes, where it is not above `most`.
fn number_of(word: &[u8], at: usize, most: u64) -> Result<u64, LineFault>
    ensures { result ≡ as_number at (numeral most word.now) }
{
    decimal::read(word, most).map_err(|_| LineFault::NoNumber { word: at })
}

// The number that the next word writes, where it is not above `most`.
pub fn number(words: &mut Words<'_>, at: usize, most: u64) -> Result<u64, LineFault>
    ensures { Numbers most at (left words.old) (left words.new) result }
{
    let word = next_word(words, at)?;
    number_of(word, at, most)
}

// The length of an outlet that the next word writes: `full` is one that every answer fits.
pub fn room(words: &mut Words<'_>, at: usize) -> Result<u64, LineFault>
    ensures { Rooms at (left words.old) (left words.new) result }
{
    let word = next_word(words, at)?;
    if word == FULL {
        return Ok(ROOM);
    }
    number_of(word, at, LONGEST)
}

// The epoch that the next word writes.
pub fn epoch(words: &mut Words<'_>, at: usize) -> Result<u16, LineFault>
    ensures { Numbers 65535 at (left words.old) (left words.new) result }
{
    let epoch = number(words, at, 65535)?;
    Ok(epoch as u16)
}

// The kind of book that the next word names.
fn shelf_named(words: &mut Words<'_>, at: usize) -> Result<Shelf, LineFault>
    ensures { Shelves at (left words.old) (left words.new) result }
{
    let word = next_word(words, at)?;
    Shelf::of(word).ok_or(LineFault::UnknownBook { word: at })
}

// The group that the next word names.
fn kind_named(words: &mut Words<'_>, at: usize) -> Result<Kind, LineFault>
    ensures { Kinds at (left words.old) (left words.new) result }
{
    let word = next_word(words, at)?;
    Kind::of(word).ok_or(LineFault::UnknownGroup { word: at })
}

// The kind of book that the next word names, and how many bytes it lies in, which end the line.
pub fn shelf_and_length(mut words: Words<'_>, at: usize) -> Result<(Shelf, u64), LineFault>
    requires { at < 8 }
    ensures { result ≡ shelf_and_length at (left words.entry) }
{
    let shelf = shelf_named(&mut words, at)?;
    let length = number(&mut words, at + 1, LONGEST)?;
    end(words, at + 2)?;
    Ok((shelf, length))
}

// The group that the only word names.
pub fn kind(mut words: Words<'_>, at: usize) -> Result<Kind, LineFault>
    requires { at < 8 }
    ensures { result ≡ kind_at at (left words.entry) }
{
    let kind = kind_named(&mut words, at)?;
    end(words, at + 1)?;
    Ok(kind)
}

// The bytes of the only word that is left.
// Stays four functions, here and below, each of three lines: a caller who has the words alone asks for as many as it needs.
pub fn one(words: Words<'_>, at: usize, names: &Names, heap: Global) -> Result<Vec<u8>, LineFault>
    requires { at < 8 }
    ensures { One (holds names.now) at (left words.entry) result }
{
    let mut arguments = Arguments::new(words, at, names, heap);
    let first = arguments.bytes()?;
    arguments.end()?;
    Ok(first)
}

// The bytes of the two words that are left.
pub fn two(
    words: Words<'_>,
    at: usize,
    names: &Names,
    heap: Global,
) -> Result<(Vec<u8>, Vec<u8>), LineFault>
    requires { at < 7 }
    ensures { Two (holds names.now) at (left words.entry) result }
{
    let mut arguments = Arguments::new(words, at, names, heap);
    let first = arguments.bytes()?;
    let second = one(arguments.words, arguments.next, names, heap)?;
    Ok((first, second))
}

// The bytes of the three words that are left.
pub fn three(
    words: Words<'_>,
    at: usize,
    names: &Names,
    heap: Global,
) -> Result<(Vec<u8>, Vec<u8>, Vec<u8>), LineFault>
    requires { at < 6 }
    ensures { Three (holds names.now) at (left words.entry) result }
{
    let mut arguments = Arguments::new(words, at, names, heap);
    let first = arguments.bytes()?;
    let (second, third) = two(arguments.words, arguments.next, names, heap)?;
    Ok((first, second, third))
}

// The bytes of the four words that are left.
pub fn four(
    words: Words<'_>,
    at: usize,
    names: &Names,
    heap: Global,
) -> Result<(Vec<u8>, Vec<u8>, Vec<u8>, Vec<u8>), LineFault>
    requires { at < 5 }
    ensures { Four (holds names.now) at (left words.entry) result }
{
    let mut arguments = Arguments::new(words, at, names, heap);
    let first = arguments.bytes()?;
    let (second, third, fourth) = three(arguments.words, arguments.next, names, heap)?;
    Ok((first, second, third, fourth))
}

// The command has all its words.
pub fn end(mut words: Words<'_>, at: usize) -> Result<(), LineFault>
    ensures { result ≡ at_end at (left words.entry) }
{
    match words.take() {
        Some(_) => Err(LineFault::ExtraWord { word: at }),
        None => Ok(()),
    }
}

// The words after a command that are still to be read, and what they may name.
#[derive(Drop)]
pub struct Arguments<'a> {
    pub words: Words<'a>,
    // the number that the next word has in its line
    pub next: usize,
    pub names: &'a Names,
    pub heap: Global,
}

// Stays a `requires` in each method that `next` can be counted on: an invariant that bounds `next` alone would not
// bound the number after it, and each method would ask the same.
impl<'a> Arguments<'a> {
    pub(crate) fn new(
        words: Words<'a>,
        next: usize,
        names: &'a Names,
        heap: Global,
    ) -> Arguments<'a>
        ensures words { result.words ≡ words.entry }
        ensures next { result.next ≡ next }
        ensures names { result.names.now ≡ names.now }
    {
        Arguments {
            words,
            next,
            names,
            heap,
        }
    }

    // The number of the next word, which is counted.
    fn count(&mut self) -> usize
        requires { self.old.next < 16 }
        ensures { Counts self.old self.new result }
    {
        let number = self.next;
        self.next += 1;
        number
    }

    // The next word, with its number.
    fn word(&mut self) -> Result<(usize, &'a [u8]), LineFault>
        requires { self.old.next < 16 }
        ensures { Takes self.old self.new result }
    {
        let number = self.count();
        let word = next_word(&mut self.words, number)?;
        Ok((number, word))
    }

    // The bytes that the next word stands for.
    pub(crate) fn bytes(&mut self) -> Result<Vec<u8>, LineFault>
        requires { self.old.next < 16 }
        ensures { Brings self.old self.new result }
    {
        let (at, word) = self.word()?;
        let mut bytes = Vec::new(self.heap);
        arguments::read(word, at, self.names, &mut bytes)?;
        Ok(bytes)
    }

    // The number that the next word writes, where it is not above `most`.
    pub(crate) fn number(&mut self, most: u64) -> Result<u64, LineFault>
        requires { self.old.next < 16 }
        ensures { Reads (first_number most) self.old self.new result }
    {
        let at = self.count();
        number(&mut self.words, at, most)
    }

    // The epoch that the next word writes.
    pub(crate) fn epoch(&mut self) -> Result<u16, LineFault>
        requires { self.old.next < 16 }
        ensures { Reads (first_number 65535) self.old self.new result }
    {
        let at = self.count();
        epoch(&mut self.words, at)
    }

    // The length of an outlet that the next word writes: `full` is one that every answer fits.
    pub(crate) fn room(&mut self) -> Result<u64, LineFault>
        requires { self.old.next < 16 }
        ensures { Reads first_room self.old self.new result }
    {
        let at = self.count();
        room(&mut self.words, at)
    }

    // The kind of book that the next word names.
    pub(crate) fn shelf(&mut self) -> Result<Shelf, LineFault>
        requires { self.old.next < 16 }
        ensures { Reads first_shelf self.old self.new result }
    {
        let at = self.count();
        shelf_named(&mut self.words, at)
    }

    // The group that the next word names.
    pub(crate) fn kind(&mut self) -> Result<Kind, LineFault>
        requires { self.old.next < 16 }
        ensures { Reads first_kind self.old self.new result }
    {
        let at = self.count();
        kind_named(&mut self.words, at)
    }

    // The command has all its words.
    pub(crate) fn end(self) -> Result<(), LineFault>
        ensures { result ≡ at_end self.entry.next (left self.entry.words) }
    {
        end(self.words, self.next)
    }
}
