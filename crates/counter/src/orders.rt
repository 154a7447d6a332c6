// A script's calls of the client. The batch that is pending is lent: it can be neither copied nor let go, so
// whoever owns it abandons it in the end.
ghost use Rattle.std.specs.Prelude.{◌≡◌, ◌/◌, length, Some};
ghost use Rattle.client.specs.Batches.{outlet_after};
ghost use Rattle.client.specs.Blinding.{blind_answer};
ghost use Rattle.client.specs.Finishing.{finished};
ghost use Rattle.counter.specs.Orders.{blind_in, finish_in, blind_turn, finish_turn, abandon_turn, waiting, Begins, Takes};

use circ523::Point;
use client::{Order, Pending, Unfinished};
use commands::Kind;
use faults::{BatchFault, Fault};
use group::Group;
use messages::request_len;
use res2039::Residue;
use script::answers::{Answer, Outcome};
use script::errors::LineFault;
use std::alloc::Global;

// The length of a token.
const TOKEN: usize = 132;

// The lengths of the buffers that a call is lent.
#[derive(Clone, Copy)]
pub struct Buffers {
    pub scratch: usize,
    pub outlet: usize,
}

// The batch is pending from now on. None was pending before: else that one is given up.
fn put(pending: &mut Option<Pending>, batch: Pending)
    ensures { pending.new ≡ Some batch }
{
    if let Some(before) = pending.replace(batch) {
        let _ = before.abandon();
    }
}

// Blinds a batch, and answers how many bytes its request has.
fn begin<G: Group>(
    scratch: &mut [u8],
    epoch: u16,
    order: Order<'_>,
    outlet: &mut [u8],
) -> Result<(Pending, usize), BatchFault>
    ensures answer { Begins (blind_answer G.model (length scratch.old) epoch order.entry.pk.now order.entry.seeds.now order.entry.blinds.now (length outlet.old)) epoch (length order.entry.seeds.now / 64) result }
    ensures outlet { outlet.new ≡ outlet_after (blind_answer G.model (length scratch.old) epoch order.entry.pk.now order.entry.seeds.now order.entry.blinds.now (length outlet.old)) outlet.old }
{
    let batch = client::blind::<G>(scratch, epoch, order, outlet)?;
    Ok((batch, request_len::<G>((order.seeds.len() / 64) as u8)))
}

// The same in the chosen group.
// Stays a match of two arms, here and below, as in the calls of `commands::Kind`.
fn begin_in(
    kind: Kind,
    scratch: &mut [u8],
    epoch: u16,
    order: Order<'_>,
    outlet: &mut [u8],
) -> Result<(Pending, usize), BatchFault>
    ensures answer { Begins (blind_in kind (length scratch.old) epoch order.entry.pk.now order.entry.seeds.now order.entry.blinds.now (length outlet.old)) epoch (length order.entry.seeds.now / 64) result }
    ensures outlet { outlet.new ≡ outlet_after (blind_in kind (length scratch.old) epoch order.entry.pk.now order.entry.seeds.now order.entry.blinds.now (length outlet.old)) outlet.old }
{
    match kind {
        Kind::Res2039 => begin::<Residue>(scratch, epoch, order, outlet),
        Kind::Circ523 => begin::<Point>(scratch, epoch, order, outlet),
    }
}

// `blind`: answers the request of a batch, which is pending from then on.
pub fn blind(
    kind: Kind,
    buffers: Buffers,
    pending: &mut Option<Pending>,
    epoch: u16,
    order: Order<'_>,
    heap: Global,
) -> Result<Outcome, LineFault>
    ensures { Takes (blind_turn kind buffers.scratch buffers.outlet (waiting pending.old) epoch order.entry.pk.now order.entry.seeds.now order.entry.blinds.now) (waiting pending.old) (waiting pending.new) result }
{
    if pending.is_some() {
        return Err(LineFault::PendingBatch);
    }
    let mut scratch = vec![in heap; 0u8; buffers.scratch]?;
    let mut outlet = vec![in heap; 0u8; buffers.outlet]?;
    match begin_in(
        kind,
        scratch.as_mut_slice(),
        epoch,
        order,
        outlet.as_mut_slice(),
    ) {
        Ok(begun) => {
            let (batch, length) = begun;
            outlet.truncate(length);
            put(pending, batch);
            Ok(Ok(Answer::Bytes(outlet)))
        }
        Err(fault) => Ok(Err(fault.refusal())),
    }
}

// The same of a reply to the pending batch, in the chosen group: how many tokens were written.
fn finish_in(
    kind: Kind,
    scratch: &mut [u8],
    pending: Pending,
    order: Order<'_>,
    reply: &[u8],
    outlet: &mut [u8],
) -> Result<u8, Unfinished>
    ensures answer { result ≡ finished pending (finish_in kind (length scratch.old) pending.epoch pending.count order.entry.pk.now order.entry.seeds.now order.entry.blinds.now reply.now (length outlet.old)) }
    ensures outlet { outlet.new ≡ outlet_after (finish_in kind (length scratch.old) pending.epoch pending.count order.entry.pk.now order.entry.seeds.now order.entry.blinds.now reply.now (length outlet.old)) outlet.old }
{
    match kind {
        Kind::Res2039 => client::finish::<Residue>(scratch, pending, order, reply, outlet),
        Kind::Circ523 => client::finish::<Point>(scratch, pending, order, reply, outlet),
    }
}

// `finish`: answers the tokens of the pending batch and ends it, or leaves it pending.
pub fn finish(
    kind: Kind,
    buffers: Buffers,
    pending: &mut Option<Pending>,
    order: Order<'_>,
    reply: &[u8],
    heap: Global,
) -> Result<Outcome, LineFault>
    ensures { Takes (finish_turn kind buffers.scratch buffers.outlet (waiting pending.old) order.entry.pk.now order.entry.seeds.now order.entry.blinds.now reply.now) (waiting pending.old) (waiting pending.new) result }
{
    let mut scratch = vec![in heap; 0u8; buffers.scratch]?;
    let mut outlet = vec![in heap; 0u8; buffers.outlet]?;
    let Some(batch) = pending.take() else {
        return Err(LineFault::NoBatch);
    };
    match finish_in(
        kind,
        scratch.as_mut_slice(),
        batch,
        order,
        reply,
        outlet.as_mut_slice(),
    ) {
        Ok(count) => {
            outlet.truncate(TOKEN * count as usize);
            Ok(Ok(Answer::Bytes(outlet)))
        }
        Err(unfinished) => {
            let Unfinished {
                pending: batch,
                fault,
            } = unfinished;
            put(pending, batch);
            Ok(Err(fault.refusal()))
        }
    }
}

// `abandon`: gives the pending batch up, and answers its epoch and how many items it has.
pub fn abandon(pending: &mut Option<Pending>) -> Result<Outcome, LineFault>
    ensures { Takes (abandon_turn (waiting pending.old)) (waiting pending.old) (waiting pending.new) result }
{
    match pending.take() {
        Some(batch) => {
            let (epoch, count) = batch.abandon();
            Ok(Ok(Answer::Pair(u64::from(epoch), u64::from(count))))
        }
        None => Err(LineFault::NoBatch),
    }
}
