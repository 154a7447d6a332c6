// A shop at work: one batch blinded and finished, round after round.
ghost use Rattle.std.specs.Prelude.{◌≡◌, ◌≤◌, length};

use client::{Order, Pending, Unfinished, blind, finish};
use group::Group;

// The epoch of the batch.
const EPOCH: u16 = 1;

// Gives up a batch that its reply did not finish.
fn give_up(unfinished: Unfinished) {
    let Unfinished { pending, fault: _ } = unfinished;
    let _ = pending.abandon();
}

// Ends a batch by its reply, or gives it up; whether there were tokens.
fn end<G: Group>(
    scratch: &mut [u8],
    pending: Pending,
    order: Order<'_>,
    reply: &[u8],
    tokens: &mut [u8],
) -> bool {
    match finish::<G>(scratch, pending, order, reply, tokens) {
        Ok(_) => true,
        Err(unfinished) => {
            give_up(unfinished);
            false
        }
    }
}

// One batch from its request to its tokens; whether both calls were accepted.
fn order_once<G: Group>(
    scratch: &mut [u8],
    order: Order<'_>,
    reply: &[u8],
    request: &mut [u8],
    tokens: &mut [u8],
) -> bool {
    match blind::<G>(scratch, EPOCH, order, request) {
        Ok(pending) => end::<G>(scratch, pending, order, reply, tokens),
        Err(_) => false,
    }
}

// How many of so many rounds gave tokens.
pub fn orders<G: Group>(
    order: Order<'_>,
    reply: &[u8],
    request: &mut [u8],
    tokens: &mut [u8],
    rounds: u32,
) -> u32
    ensures { result ≤ rounds }
{
    let mut scratch = [0; 1024];
    let mut done: u32 = 0;
    for _ in 0..rounds {
        if order_once::<G>(&mut scratch, order, reply, request, tokens) {
            done = done.saturating_add(1);
        }
    }
    done
}
