// Blinding a batch: seeds and blinds become a request.
ghost use Rattle.std.specs.Prelude.{◌≡◌, ℕ, ◌/◌, length, replicate, IfOk};
ghost use Rattle.client.specs.Batches.{outlet_after};
ghost use Rattle.client.specs.Blinding.{vetted, Vetted as Sound, blind_answer, begun, batch_seen};

use crate::items::Batch;
use crate::order::Order;
use crate::passes::Sending;
use crate::pending::Pending;
use faults::{BatchFault, RingFault, WireFault};
use group::Group;
use hashing::key_id;
use messages::{Request, request_len, write_request};
use scratch::{ENOUGH, Scratch};
use std::marker::PhantomData;
use token::element;

// The checks before any item that come after the scratch's, in their order: the public key, and how many items
// there are.
fn vet<G: Group>(epoch: u16, order: Order<'_>, outlet: usize) -> Result<(G, u8), BatchFault>
    ensures answer { result ≡ vetted G.model 1024 epoch order.entry.pk.now order.entry.seeds.now order.entry.blinds.now outlet }
    ensures known { IfOk result (λ p. Sound G.model 1024 order.entry.seeds.now order.entry.blinds.now outlet p.1) }
{
    if epoch == 0 {
        return Err(RingFault::NotOpen.into());
    }
    if order.pk.len() != G::element_width() || order.seeds.len() % 64 != 0 {
        return Err(WireFault::WrongLength.into());
    }
    let n = order.seeds.len() / 64;
    if !(1..=16).contains(&n) {
        return Err(WireFault::WrongCount.into());
    }
    if order.blinds.len() != n * G::scalar_width() {
        return Err(WireFault::WrongLength.into());
    }
    let pk = element::<G>(order.pk)?;
    if outlet < request_len::<G>(n as u8) {
        return Err(WireFault::ShortOutlet.into());
    }
    Ok((pk, n as u8))
}

// Writes the request for a batch of tokens to the front of the outlet, and gives the pending batch.
pub fn blind<G: Group>(
    scratch: &mut [u8],
    epoch: u16,
    order: Order<'_>,
    outlet: &mut [u8],
) -> Result<Pending, BatchFault>
    ensures answer { batch_seen result ≡ begun epoch (length order.entry.seeds.now / 64) (blind_answer G.model (length scratch.old) epoch order.entry.pk.now order.entry.seeds.now order.entry.blinds.now (length outlet.old)) }
    ensures outlet { outlet.new ≡ outlet_after (blind_answer G.model (length scratch.old) epoch order.entry.pk.now order.entry.seeds.now order.entry.blinds.now (length outlet.old)) outlet.old }
    ensures scratch { scratch.new ≡ replicate (length scratch.old) 0 }
{
    let guard = Scratch { bytes: scratch };
    let Some(work) = guard.bytes.first_chunk_mut::<ENOUGH>() else {
        return Err(WireFault::ShortScratch.into());
    };
    let (pk, count) = vet::<G>(epoch, order, outlet.len())?;
    let mut codes = [0; 128];
    let codes = &mut codes[..count as usize * G::element_width()];
    let batch = Batch {
        epoch,
        count,
        id: &key_id(pk),
        seeds: order.seeds,
        blinds: order.blinds,
        answers: &[],
        group: PhantomData::<G>,
    };
    batch.walk::<Sending>(work, codes)?;
    write_request::<G>(
        Request {
            epoch,
            count,
            items: codes,
        },
        outlet,
    )?;
    Ok(Pending { epoch, count })
}
