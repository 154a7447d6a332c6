// The client: what a shop calls to order tokens.
//
//   seeds, blinds --blind--> request .. reply --finish--> tokens
//
// `blind` gives a pending batch, which `finish` or `abandon` must end: it can be neither copied nor let go. A
// finish that is refused hands the batch back, still pending.
#![tactic(auto)]

ghost use Rattle.client.specs.Honest.{HonestReplies};

pub use blinding::blind;
pub use finishing::{Unfinished, finish};
use group::Group;
pub use order::Order;
pub use pending::Pending;

mod blinding;
mod finishing;
mod items;
mod order;
mod passes;
mod pending;

// Whatever a station answers that keeps to the steps, `finish` accepts, and its tokens are good.
pub fn honest_replies_are_accepted<G: Group>()
    ensures { HonestReplies G.model }
{}
