// A station at work: redemptions and issues, round after round, on a fresh station over a book.
ghost use Rattle.std.specs.Prelude.{◌≡◌, ◌*◌, ◌/◌, ◌≤◌, length};
ghost use Rattle.std.specs.Result.{OnErr};

use book::{Book, Layout, Work};
use group::Group;
use station::Station;

// The epoch that the station opens.
const EPOCH: u16 = 1;

// Redeeming tokens that stand in a row: once they are spent, each further round tells so of every one.
#[derive(Drop)]
pub struct Redemptions<'a, 'b, G: Group> {
    // any element: it says which group
    pub group: G,
    pub key: &'a [u8],
    pub tokens: &'b [u8],
    pub rounds: u32,
}

impl<'a, 'b, G: Group> Work for Redemptions<'a, 'b, G> {
    type Answer = u32;

    ghost told = { λ w b r. r ≤ w.rounds * (length w.tokens.now / 132) };

    fn on<B: Book + Drop>(self, book: B) -> u32 {
        let mut station = Station::<G, B>::new(book);
        let mut scratch = [0; 1024];
        let mut pk = [0; 8];
        let _ = station.open(&mut scratch, EPOCH, self.key, &mut pk);
        let mut accepted: u32 = 0;
        for _ in 0..self.rounds {
            accepted = accepted.saturating_add(accepted_of(
                &mut station,
                &mut scratch,
                self.tokens,
            ));
        }
        accepted
    }
}

// How many of the tokens are accepted.
fn accepted_of<G: Group, B: Book>(
    station: &mut Station<G, B>,
    scratch: &mut [u8],
    tokens: &[u8],
) -> u32
    ensures { result ≤ length tokens.now / 132 }
{
    let mut accepted: u32 = 0;
    let (tokens, _) = tokens.as_chunks::<132>();
    for token in tokens {
        if station.redeem(scratch, token).is_ok() {
            accepted = accepted.saturating_add(1);
        }
    }
    accepted
}

// How many redemptions a station over a book of a kind accepts; 0 where the memory holds no book.
pub fn redeemed<L: Layout, G: Group>(
    memory: &mut [u8],
    key: &[u8],
    tokens: &[u8],
    rounds: u32,
) -> u32
    ensures most { result ≤ rounds * (length tokens.now / 132) }
    ensures none { OnErr (L.room (length memory.old)) (result ≡ 0) }
    ensures stays { OnErr (L.room (length memory.old)) (memory.new ≡ memory.old) }
{
    let work = Redemptions {
        group: G::null(),
        key,
        tokens,
        rounds,
    };
    L::with_book(memory, work).unwrap_or(0)
}

// The longest reply has 5 bytes, 16 codes of 8 bytes and two scalars of 2.
pub const REPLY: usize = 137;

// What issues left: the last reply at the front, and how many were accepted.
#[derive(Drop)]
pub struct Issued {
    pub reply: [u8; 137],
    pub accepted: u32,
}

// Answering one request, round after round.
#[derive(Drop)]
pub struct Issues<'a, 'b, 'c, G: Group> {
    // any element: it says which group
    pub group: G,
    pub key: &'a [u8],
    pub request: &'b [u8],
    pub nonce: &'c [u8],
    pub rounds: u32,
}

impl<'a, 'b, 'c, G: Group> Work for Issues<'a, 'b, 'c, G> {
    type Answer = Issued;

    ghost told = { λ w b r. r.accepted ≤ w.rounds };

    fn on<B: Book + Drop>(self, book: B) -> Issued {
        let mut station = Station::<G, B>::new(book);
        let mut scratch = [0; 1024];
        let mut reply = [0; 137];
        let _ = station.open(&mut scratch, EPOCH, self.key, &mut reply);
        let mut accepted: u32 = 0;
        for _ in 0..self.rounds {
            if station
                .issue(&mut scratch, self.request, self.nonce, &mut reply)
                .is_ok()
            {
                accepted = accepted.saturating_add(1);
            }
        }
        Issued { reply, accepted }
    }
}
