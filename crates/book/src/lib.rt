// The spent book: which tokens have been redeemed.
//
// A book means a set of pairs (epoch, nonce) and a capacity of at least 1 that never changes. `Book` is
// what a station knows of it: its calls, each with what it does to that meaning. A kind of book says
// where the pairs lie, and shows that its calls do just this; what stands above uses the meaning alone,
// so every kind serves every station. docs/BOOKS.md has the meaning in words, and how to add a kind.
#![tactic(auto)]

ghost use Rattle.std.specs.Prelude.{◌≡◌, ◌+◌, Ok, Err, Decides, ◌≢◌};
ghost use Rattle.faults.specs.declared.BookFault.TheVariants.{Spent, Full};
ghost use Rattle.book.specs.Meaning.{Meaning, In, size_of, Cleared, Marked, Dropped};
ghost use Rattle.book.specs.Runs.{Runs};
ghost use Rattle.book.specs.Laws.{ToldAlike, SizeCounts, MarkAnswers, MarkCounts, DropCounts, OnePlaceHolds, worked_calls};

use faults::BookFault;

mod layout;
pub mod words;

pub use layout::{Layout, records_in};

pub trait Book {
    // What the book means. That no pair is in it twice, that the size is at most the capacity, and that the
    // capacity is at least 1, are fields of the meaning: a kind cannot give one without showing them.
    ghost meaning: { Self → Meaning };

    // Takes every pair out.
    fn clear(&mut self)
        ensures { Cleared (meaning self.old) (meaning self.new) };

    // Whether a pair is in the book.
    // Stays with epoch and nonce apart, here and in the kinds: a token has them apart, and a record compares them so.
    fn has(&self, epoch: u16, nonce: &[u8; 32]) -> bool
        ensures { Decides result (In (meaning self.now) (epoch, nonce.now)) };

    // Adds a pair. One that is in the book is refused as spent, then any where no place is free.
    fn mark(&mut self, epoch: u16, nonce: &[u8; 32]) -> Result<(), BookFault>
        ensures { Marked (meaning self.old) (epoch, nonce.now) result (meaning self.new) };

    // Takes out the pairs of an epoch, and answers how many they were.
    fn drop_epoch(&mut self, epoch: u16) -> u16
        ensures { Dropped (meaning self.old) epoch result (meaning self.new) };

    // How many pairs are in the book.
    fn size(&self) -> u16
        ensures { result ≡ size_of (meaning self.now) };

    // How many pairs it takes.
    fn capacity(&self) -> u16
        ensures { result ≡ (meaning self.now).capacity };
}

// A piece of work to be done on a fresh book of any kind. A book over lent memory cannot be handed back
// inside a `Result`, so a kind takes the work instead, and refuses memory that holds no book.
pub trait Work: Sized {
    type Answer;

    // What the work answers, from what the book means at its start.
    ghost told: { Self → Meaning → Self.Answer → Type 0 };

    fn on<B: Book + Drop>(self, book: B) -> Self::Answer
        ensures { told self (B.Book.meaning book) result };
}

// The answers of the worked case below.
#[derive(Drop)]
pub struct OnePlace {
    pub first: Result<(), BookFault>,
    pub again: Result<(), BookFault>,
    pub other: Result<(), BookFault>,
    pub dropped: u16,
    pub last: Result<(), BookFault>,
}

// How many more pairs the book takes.
pub fn places_left<B: Book>(book: &B) -> u16
    ensures { result + size_of (B.Book.meaning book.now) ≡ (B.Book.meaning book.now).capacity }
{
    book.capacity() - book.size()
}

// Clears a book, makes the calls of the worked case, and answers what they answered. Where the book has one
// place, that is: accepted, spent, full, one pair dropped, accepted.
pub fn one_place<B: Book>(book: &mut B, a: &[u8; 32], b: &[u8; 32]) -> OnePlace
    ensures ran { (m : Meaning) × Cleared (B.Book.meaning book.old) m × Runs m (worked_calls a.now b.now) (result.first, (result.again, (result.other, (result.dropped, (result.last, tt))))) (B.Book.meaning book.new) }
    ensures worked { (B.Book.meaning book.old).capacity ≡ 1 → (a.now ≢ b.now) → result ≡ record { first = Ok tt; again = Err Spent; other = Err Full; dropped = 1; last = Ok tt } }
{
    book.clear();
    let first = book.mark(1, a);
    let again = book.mark(1, a);
    let other = book.mark(1, b);
    let dropped = book.drop_epoch(1);
    let last = book.mark(2, b);
    OnePlace {
        first,
        again,
        other,
        dropped,
        last,
    }
}

// The same over the meaning: any book with one place gives these answers to this list of calls.
pub fn one_place_is_worked()
    ensures { OnePlaceHolds }
{}

// No list of calls tells two books of one set and one capacity apart.
pub fn books_are_told_alike()
    ensures { ToldAlike }
{}

// The set and the capacity settle what mark answers, and the sizes after mark and drop.
pub fn answers_follow_from_the_set()
    ensures answers { MarkAnswers }
    ensures size { SizeCounts }
    ensures marked { MarkCounts }
    ensures dropped { DropCounts }
{}
