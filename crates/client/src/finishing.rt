// Finishing a batch: a reply becomes tokens.
ghost use Rattle.std.specs.Prelude.{◌≡◌, ℕ, ◌*◌, ◌≤◌, length, replicate, IfOk};
ghost use Rattle.messages.specs.Views.{answers};
ghost use Rattle.client.specs.Batches.{outlet_after};
ghost use Rattle.client.specs.Finishing.{reply_parts, answers_seen, finish_vetted, known_seen, Finishable, confirmed, finish_answer, settled, finished};

use crate::items::Batch;
use crate::order::Order;
use crate::passes::{Checking, TOKEN, Writing};
use crate::pending::Pending;
use faults::{BatchFault, RingFault, WireFault};
use group::Group;
use hashing::key_id;
use messages::{Reply, split_reply, take_header};
use scratch::{ENOUGH, Scratch};
use std::marker::PhantomData;
use token::element;
use voprf::proving::check;

// A finish that was refused: the batch is still pending, and the fault says why. A caller takes it apart by a `let`
// of its own, not inside the pattern of the `Err`: what a `Result` holds has to be whole there.
pub struct Unfinished {
    pub pending: Pending,
    pub fault: BatchFault,
}

// Reads a reply to a batch of this epoch and of so many items.
fn read<G: Group>(epoch: u16, count: u8, reply: &[u8]) -> Result<Reply<'_>, BatchFault>
    ensures { answers_seen result ≡ reply_parts G.model epoch count reply.now }
{
    let (front, rest) = take_header(reply)?;
    let (items, challenge, response) = split_reply::<G>(count, rest)?;
    if front.kind != G::kind() {
        return Err(WireFault::WrongType.into());
    }
    if front.epoch != epoch {
        return Err(RingFault::NotOpen.into());
    }
    if front.count != count {
        return Err(WireFault::WrongCount.into());
    }
    Ok(Reply {
        epoch,
        count,
        items,
        challenge,
        response,
    })
}

// The checks before any item that come after the scratch's, in their order: the public key, and the reply in its
// parts.
fn vet<'a, G: Group>(
    pending: &Pending,
    order: Order<'_>,
    reply: &'a [u8],
    outlet: usize,
) -> Result<(G, Reply<'a>), BatchFault>
    ensures answer { known_seen result ≡ finish_vetted G.model 1024 pending.now.epoch pending.now.count order.entry.pk.now order.entry.seeds.now order.entry.blinds.now reply.now outlet }
    ensures known { IfOk result (λ p. Finishable G.model 1024 pending.now.epoch pending.now.count order.entry.seeds.now order.entry.blinds.now (answers p.1) outlet) }
{
    let count = pending.count as usize;
    if order.pk.len() != G::element_width()
        || order.seeds.len() != 64 * count
        || order.blinds.len() != count * G::scalar_width()
    {
        return Err(WireFault::WrongLength.into());
    }
    let reply = read::<G>(pending.epoch, pending.count, reply)?;
    let pk = element::<G>(order.pk)?;
    if outlet < TOKEN * count {
        return Err(WireFault::ShortOutlet.into());
    }
    Ok((pk, reply))
}

// Whether one key answered every item of a batch: the items pass one by one, and then the batch's proof does.
fn confirm<G: Group>(
    work: &mut [u8; ENOUGH],
    pk: G,
    batch: &Batch<'_, G>,
    challenge: &[u8],
    response: &[u8],
) -> Result<(), BatchFault>
    ensures { result ≡ confirmed G.model pk batch.now.id.now batch.now.seeds.now batch.now.blinds.now (record { epoch = batch.now.epoch; count = batch.now.count; items = batch.now.answers.now; challenge = challenge.now; response = response.now }) }
{
    let mut codes = [0; 128];
    let sent = &mut codes[..batch.count as usize * G::element_width()];
    batch.walk::<Checking>(work, sent)?;
    let c = G::decode_scalar(challenge)?;
    let s = G::decode_scalar(response)?;
    check(work, pk, sent, batch.answers, c, s)
}

// Checks the whole reply, and then writes the tokens to the front of the outlet.
fn settle<G: Group>(
    scratch: &mut [u8],
    pending: &Pending,
    order: Order<'_>,
    reply: &[u8],
    outlet: &mut [u8],
) -> Result<(), BatchFault>
    ensures answer { result ≡ settled (finish_answer G.model (length scratch.old) pending.now.epoch pending.now.count order.entry.pk.now order.entry.seeds.now order.entry.blinds.now reply.now (length outlet.old)) }
    ensures outlet { outlet.new ≡ outlet_after (finish_answer G.model (length scratch.old) pending.now.epoch pending.now.count order.entry.pk.now order.entry.seeds.now order.entry.blinds.now reply.now (length outlet.old)) outlet.old }
    ensures scratch { scratch.new ≡ replicate (length scratch.old) 0 }
{
    let guard = Scratch { bytes: scratch };
    let Some(work) = guard.bytes.first_chunk_mut::<ENOUGH>() else {
        return Err(WireFault::ShortScratch.into());
    };
    let (pk, reply) = vet::<G>(pending, order, reply, outlet.len())?;
    let id = key_id(pk);
    let batch = Batch {
        epoch: reply.epoch,
        count: reply.count,
        id: &id,
        seeds: order.seeds,
        blinds: order.blinds,
        answers: reply.items,
        group: PhantomData::<G>,
    };
    confirm(work, pk, &batch, reply.challenge, reply.response)?;
    batch.walk::<Writing>(work, &mut outlet[..TOKEN * reply.count as usize])?;
    Ok(())
}

// Writes the tokens of a batch to the front of the outlet, 132 bytes each, and answers how many they are.
pub fn finish<G: Group>(
    scratch: &mut [u8],
    pending: Pending,
    order: Order<'_>,
    reply: &[u8],
    outlet: &mut [u8],
) -> Result<u8, Unfinished>
    ensures answer { result ≡ finished pending (finish_answer G.model (length scratch.old) pending.epoch pending.count order.entry.pk.now order.entry.seeds.now order.entry.blinds.now reply.now (length outlet.old)) }
    ensures outlet { outlet.new ≡ outlet_after (finish_answer G.model (length scratch.old) pending.epoch pending.count order.entry.pk.now order.entry.seeds.now order.entry.blinds.now reply.now (length outlet.old)) outlet.old }
    ensures scratch { scratch.new ≡ replicate (length scratch.old) 0 }
{
    match settle::<G>(scratch, &pending, order, reply, outlet) {
        Ok(()) => {
            let (_, count) = pending.abandon();
            Ok(count)
        }
        Err(fault) => Err(Unfinished { pending, fault }),
    }
}
