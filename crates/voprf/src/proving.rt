// The batch proof: that one key answered every item, by one challenge and one response.
ghost use Rattle.std.specs.Prelude.{◌≡◌, ℕ, ◌+◌, ◌*◌, ◌<◌, ◌≤◌, length};
ghost use Rattle.group.specs.Elements.{null};
ghost use Rattle.voprf.specs.Proving.{seed as seed_of, weight as weight_of, read_item, step, steps, composites as composed, challenge as challenged, rechallenge, proved, checked, ProofsPass};

use faults::{BatchFault, WireFault};
use group::{Group, multiple};
use hashing::{hash, hash_to_scalar, put_context, put_element, put_framed};
use numbers::writer::Writer;
use scratch::ENOUGH;

// The most items that a batch has.
pub const MOST: usize = 16;

// The codes of an item: of what was sent, and of what was answered.
#[derive(Clone, Copy)]
struct Answered<'a> {
    sent: &'a [u8],
    got: &'a [u8],
    ghost short_sent: { length sent.now ≤ 8 },
    ghost short_got: { length got.now ≤ 8 },
}

// What all weights of a batch begin with.
fn seed<G: Group>(work: &mut [u8; ENOUGH], pk: G) -> [u8; 32]
    ensures { result ≡ seed_of G.model pk }
{
    let mut transcript = Writer::new(work);
    put_element(&mut transcript, pk);
    // "Seed-" has 5 bytes, and the context string 15 beside the group's name
    transcript.put(&(20 + G::name().len() as u16).to_be_bytes());
    transcript.put(b"Seed-");
    put_context::<G>(&mut transcript);
    hash(transcript.as_slice())
}

// The weight of an item at a place, counted from 0.
fn weight<G: Group>(
    work: &mut [u8; ENOUGH],
    seed: &[u8; 32],
    place: u16,
    item: Answered<'_>,
) -> G::Scalar
    ensures { result ≡ weight_of G.model seed.now place item.entry.sent.now item.entry.got.now }
{
    let mut transcript = Writer::new(work);
    transcript.put(&[0, 32]);
    transcript.put(seed);
    transcript.put(&place.to_be_bytes());
    put_framed::<G>(&mut transcript, item.sent);
    put_framed::<G>(&mut transcript, item.got);
    transcript.put(b"Composite");
    hash_to_scalar::<G>(&mut transcript)
}

// The element of an item's code; a fault of the group becomes one of the batch, with the item, from 1.
// Stays with a `requires` of the place, as a station's item does: places count from 0 and items from 1, and a type
// for numbers below 16 would be made for this one sum.
fn element<G: Group>(place: u16, code: &[u8]) -> Result<G, BatchFault>
    requires { place < 16 }
    ensures { result ≡ read_item G.model place (G.model.element code.now) }
{
    G::decode(code).map_err(|fault| fault.of_item(place as u8 + 1))
}

// The two sums with one item more, each time with the item's weight.
fn add_item<G: Group>(
    work: &mut [u8; ENOUGH],
    seed: &[u8; 32],
    place: u16,
    item: Answered<'_>,
    sums: (G, G),
) -> Result<(G, G), BatchFault>
    requires { place < 16 }
    ensures { result ≡ step G.model seed.now place item.entry.sent.now item.entry.got.now sums }
{
    let sent = element::<G>(place, item.sent)?;
    let got = element::<G>(place, item.got)?;
    let k = weight::<G>(work, seed, place, item);
    let (m, w) = sums;
    Ok((m.sum(multiple(k, sent)), w.sum(multiple(k, got))))
}

// The weighted sums of two rows of codes.
fn sum_items<G: Group>(
    work: &mut [u8; ENOUGH],
    seed: &[u8; 32],
    sent: &[u8],
    got: &[u8],
    count: u16,
) -> Result<(G, G), BatchFault>
    requires few { count ≤ 16 }
    requires sent { length sent.now ≡ count * G.model.element_width }
    requires got { length got.now ≡ length sent.now }
    ensures { result ≡ steps G.model seed.now 0 count sent.now got.now (null G.model, null G.model) }
{
    let width = G::element_width();
    let mut sums = (G::null(), G::null());
    let codes = sent.chunks_exact(width).zip(got.chunks_exact(width));
    for (place, (sent, got)) in (0..count).zip(codes) {
        sums = add_item::<G>(work, seed, place, Answered { sent, got }, sums)?;
    }
    Ok(sums)
}

// Stays a slice with a `requires` here, in `prove` and in `check`: an array would shut out who lends more bytes.
//
// M and W: the weighted sums of the elements sent and of the elements got, which stand as codes in two rows.
pub fn composites<G: Group>(
    bytes: &mut [u8],
    pk: G,
    sent: &[u8],
    got: &[u8],
) -> Result<(G, G), BatchFault>
    requires { 1024 ≤ length bytes.old }
    ensures { result ≡ composed G.model pk sent.now got.now }
{
    let width = G::element_width();
    let count = sent.len() / width;
    if sent.len() != count * width || got.len() != sent.len() || count > MOST {
        return Err(BatchFault::Wire(WireFault::WrongLength));
    }
    let work = bytes.first_chunk_mut().unwrap();
    let seed = seed(work, pk);
    sum_items(work, &seed, sent, got, count as u16)
}

// The hash that ties a proof to its key, its composites and its two commitments.
fn challenge<G: Group>(
    work: &mut [u8; ENOUGH],
    pk: G,
    composites: (G, G),
    commitments: (G, G),
) -> G::Scalar
    ensures { result ≡ challenged G.model pk composites.0 composites.1 commitments.0 commitments.1 }
{
    let (m, w) = composites;
    let (t2, t3) = commitments;
    let mut transcript = Writer::new(work);
    put_element(&mut transcript, pk);
    put_element(&mut transcript, m);
    put_element(&mut transcript, w);
    put_element(&mut transcript, t2);
    put_element(&mut transcript, t3);
    transcript.put(b"Challenge");
    hash_to_scalar::<G>(&mut transcript)
}

// A proof that the key answered every item: challenge and response.
pub fn prove<G: Group>(
    bytes: &mut [u8],
    key: G::NonZero,
    nonce: G::NonZero,
    pk: G,
    sent: &[u8],
    got: &[u8],
) -> Result<(G::Scalar, G::Scalar), BatchFault>
    requires { 1024 ≤ length bytes.old }
    ensures { result ≡ proved G.model key nonce pk sent.now got.now }
{
    let (m, w) = composites(bytes, pk, sent, got)?;
    let u = G::scalar_of(nonce);
    let commitments = (G::base_multiple(u), multiple(u, m));
    let work = bytes.first_chunk_mut().unwrap();
    let c = challenge(work, pk, (m, w), commitments);
    let s = G::subtract(u, G::multiply(c, G::scalar_of(key)));
    Ok((c, s))
}

// The challenge that a proof leads back to.
fn retrace<G: Group>(
    work: &mut [u8; ENOUGH],
    pk: G,
    composites: (G, G),
    proof: (G::Scalar, G::Scalar),
) -> G::Scalar
    ensures { result ≡ rechallenge G.model pk composites proof }
{
    let (m, w) = composites;
    let (c, s) = proof;
    let t2 = G::base_multiple(s).sum(multiple(c, pk));
    let t3 = multiple(s, m).sum(multiple(c, w));
    challenge(work, pk, composites, (t2, t3))
}

// Whether challenge and response prove that the key of `pk` answered every item.
pub fn check<G: Group>(
    bytes: &mut [u8],
    pk: G,
    sent: &[u8],
    got: &[u8],
    c: G::Scalar,
    s: G::Scalar,
) -> Result<(), BatchFault>
    requires { 1024 ≤ length bytes.old }
    ensures { result ≡ checked G.model pk sent.now got.now (c, s) }
{
    let composites = composites(bytes, pk, sent, got)?;
    let work = bytes.first_chunk_mut().unwrap();
    if !G::same_scalar(retrace(work, pk, composites, (c, s)), c) {
        return Err(BatchFault::BadProof);
    }
    Ok(())
}

// What the prover makes passes the check.
pub fn proofs_pass<G: Group>()
    ensures { ProofsPass G.model }
{}
