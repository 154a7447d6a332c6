// The law over every run of a station, for every kind of group and of book.
//
//   book, calls --run--> fresh station: open, close, issue, redeem, count, one after another --> outcomes
//
// `run` makes a list of calls on a fresh station, each from the state that the one before left, and gives what each
// told. Its contract holds the law over the history of these calls and outcomes: which shop sent an item cannot be told
// from its tokens; a token is accepted once, exactly where it must be; and a shop that keeps to the steps gets good
// tokens. `docs/LAW.md` has the law in plain words, `specs/Law.antt` as it is proved.
#![tactic(auto)]

ghost use Rattle.std.specs.Prelude.{◌≡◌, ℕ, min, List, ◌∷◌, reverse, length, drop};
ghost use Rattle.ring.specs.Places.{places};
ghost use Rattle.history.specs.Events.{Event, event, events, told};
ghost use Rattle.history.specs.Law.{Lawful};
ghost use Rattle.history.specs.Kept.{Kept};

use book::Book;
use group::Group;
use making::Buffers;
use station::Station;

mod calls;
mod making;

pub use calls::{Call, LONGEST, Outcome, Output, Written};

// Makes one call. A station that holds what its history says holds it with this call too.
fn make<G: Group, B: Book>(
    station: &mut Station<G, B>,
    buffers: &mut Buffers,
    call: &Call<'_>,
) -> Outcome
    ensures { (capacity : ℕ) (h : List Event) → Kept G.Group.model capacity h (places station.old.ring) station.old.ring.latest (B.Book.meaning station.old.book) → Kept G.Group.model capacity (event call.now (told result) ∷ h) (places station.new.ring) station.new.ring.latest (B.Book.meaning station.new.book) }
{
    match *call {
        Call::Count => Ok(Output::Number(station.count())),
        Call::Open {
            scratch,
            epoch,
            key,
            outlet,
        } => buffers.open(station, scratch, epoch, key, outlet),
        Call::Close { epoch } => station.close(epoch).map(Output::Number),
        Call::Issue {
            scratch,
            request,
            nonce,
            outlet,
        } => buffers.issue(station, scratch, request, nonce, outlet),
        Call::Redeem { scratch, token } => buffers
            .redeem(station, scratch, token)
            .map(|()| Output::Done),
    }
}

// Makes the calls on a fresh station over the book, as many as there is room for outcomes, and answers how many it
// made. Each outcome stands at its call's place; the places behind them stay.
pub fn run<G: Group, B: Book + Drop>(book: B, calls: &[Call<'_>], outcomes: &mut [Outcome]) -> usize
    ensures made { result ≡ min (length calls.now) (length outcomes.old) }
    ensures law { Lawful G.Group.model (B.Book.meaning book).capacity (reverse (events calls.now outcomes.new)) }
    ensures later { drop result outcomes.new ≡ drop result outcomes.old }
{
    let mut station = Station::<G, B>::new(book);
    let mut buffers = Buffers::new();
    let made = calls.len().min(outcomes.len());
    // Stays an index into the outcomes: of what is written through `iter_mut` behind a `zip` a proof knows nothing.
    for (i, call) in calls[..made].iter().enumerate() {
        outcomes[i] = make(&mut station, &mut buffers, call);
    }
    made
}
