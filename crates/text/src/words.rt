// The words of a line.
ghost use Rattle.std.specs.Prelude.{◌≡◌};
ghost use Rattle.text.specs.Lines.{line_words, left, Taken, OneReading};

use crate::class::Class;

// The words of a line that are still to be taken, first to last. Blanks stand between them, and from `#` on
// the line is a comment.
#[derive(Clone, Copy)]
pub struct Words<'a> {
    rest: &'a [u8],
}

impl<'a> Words<'a> {
    pub fn of(line: &'a [u8]) -> Words<'a>
        ensures { left result ≡ line_words line.now }
    {
        let end = Class::Code.run(line);
        let (rest, _comment) = line.split_at(end);
        Words { rest }
    }

    // Takes the next word, if one is left.
    // Stays a method, and no `Iterator`: a reader takes one word, and refuses the line where it is missing; none
    // runs over all words.
    pub fn take(&mut self) -> Option<&'a [u8]>
        ensures { Taken result (left self.old) (left self.new) }
    {
        let gap = Class::Blank.run(self.rest);
        let (_blanks, text) = self.rest.split_at(gap);
        let length = Class::Solid.run(text);
        let (word, rest) = text.split_at(length);
        self.rest = rest;
        if word.is_empty() { None } else { Some(word) }
    }
}

// A line is read as its words in one way: the law of `Words`, for every line.
pub fn one_reading()
    ensures { OneReading }
{}
