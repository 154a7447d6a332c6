// What the benchmarks link: calls of the part behind C signatures, so that a harness in C can time them beside
// other implementations and compare the answers. A slice passes as a pointer and a length.
#![tactic(auto)]

ghost use Rattle.std.specs.Prelude.{◌≡◌, ◌*◌, ◌/◌, ◌<◌, ◌≤◌, length, drop};
ghost use Rattle.std.specs.Result.{OnErr};
ghost use Rattle.circ523.specs.Kind.{points};
ghost use Rattle.res2039.specs.Kind.{residues};
ghost use Rattle.speed.specs.Answers.{digest_status, digest_out, issued_out};
ghost use Rattle.speed.specs.Products.{product, product_status, product_out};

use book::{Book, Layout, Work};
use chained::Chained;
use circ523::Point;
use client::Order;
use clients::orders;
use digest::digest;
use faults::{Fault, GroupFault, WireFault};
use group::{Group, multiple};
use res2039::Residue;
use stations::{Issued, Issues, REPLY, redeemed};
use tape::Tape;

mod clients;
mod stations;

// The epoch of the books' pairs.
const EPOCH: u16 = 1;

// Writes the digest to the front of `out` and answers 0, or answers the fault's number and writes nothing.
// Stays a number and no Result, here and below: C reads it.
#[unsafe(no_mangle)]
pub extern "C" fn dilkortxi_digest(input: &[u8], out: &mut [u8]) -> u8
    ensures status { result ≡ digest_status input.now (length out.old) }
    ensures out { out.new ≡ digest_out input.now out.old }
{
    match digest(input) {
        Err(fault) => fault.refusal().number,
        Ok(bytes) => {
            if out.len() < 32 {
                return WireFault::ShortOutlet.refusal().number;
            }
            out[0..32].copy_from_slice(&bytes);
            0
        }
    }
}

// The multiple of an element and a scalar that come as codes.
fn product<G: Group>(code: &[u8], scalar: &[u8]) -> Result<G, GroupFault>
    ensures { result ≡ product G.model code.now scalar.now }
{
    let p = G::decode(code)?;
    let s = G::decode_scalar(scalar)?;
    Ok(multiple(s, p))
}

// Writes the multiple's code to the front of `out` and answers 0, or answers the fault's number and writes nothing.
fn tell<G: Group>(product: Result<G, GroupFault>, out: &mut [u8]) -> u8
    ensures status { result ≡ product_status G.model product (length out.old) }
    ensures out { out.new ≡ product_out G.model product out.old }
{
    match product {
        Err(none) => none.refusal().number,
        Ok(x) => {
            let width = G::element_width();
            if out.len() < width {
                return WireFault::ShortOutlet.refusal().number;
            }
            out[0..width].copy_from_slice(x.encode().as_slice());
            0
        }
    }
}

// s·P in res2039.
#[unsafe(no_mangle)]
pub extern "C" fn dilkortxi_res2039_multiple(code: &[u8], scalar: &[u8], out: &mut [u8]) -> u8
    ensures status { result ≡ product_status residues (product residues code.now scalar.now) (length out.old) }
    ensures out { out.new ≡ product_out residues (product residues code.now scalar.now) out.old }
{
    tell::<Residue>(product(code, scalar), out)
}

// s·P in circ523.
#[unsafe(no_mangle)]
pub extern "C" fn dilkortxi_circ523_multiple(code: &[u8], scalar: &[u8], out: &mut [u8]) -> u8
    ensures status { result ≡ product_status points (product points code.now scalar.now) (length out.old) }
    ensures out { out.new ≡ product_out points (product points code.now scalar.now) out.old }
{
    tell::<Point>(product(code, scalar), out)
}

// Looking up nonces of one epoch in a book that other nonces of it were marked in.
#[derive(Drop)]
struct LookUps<'a, 'b> {
    marked: &'a [u8],
    sought: &'b [u8],
    rounds: u32,
}

impl<'a, 'b> Work for LookUps<'a, 'b> {
    type Answer = u32;

    ghost told = { λ w b r. r ≤ w.rounds * (length w.sought.now / 32) };

    fn on<B: Book + Drop>(self, book: B) -> u32 {
        let mut book = book;
        let (marked, _) = self.marked.as_chunks::<32>();
        for nonce in marked {
            let _ = book.mark(EPOCH, nonce);
        }
        let mut found: u32 = 0;
        for _ in 0..self.rounds {
            found = found.saturating_add(found_in(&book, self.sought));
        }
        found
    }
}

// How many of the nonces that stand in a row are in the book.
fn found_in<B: Book>(book: &B, sought: &[u8]) -> u32
    ensures { result ≤ length sought.now / 32 }
{
    let mut found: u32 = 0;
    let (sought, _) = sought.as_chunks::<32>();
    for nonce in sought {
        if book.has(EPOCH, nonce) {
            found = found.saturating_add(1);
        }
    }
    found
}

// How many look-ups found their pair in a book of a kind that is made over the memory; 0 where it holds none.
fn look_ups<L: Layout>(memory: &mut [u8], marked: &[u8], sought: &[u8], rounds: u32) -> u32
    ensures most { result ≤ rounds * (length sought.now / 32) }
    ensures none { OnErr (L.room (length memory.old)) (result ≡ 0) }
    ensures stays { OnErr (L.room (length memory.old)) (memory.new ≡ memory.old) }
{
    let work = LookUps {
        marked,
        sought,
        rounds,
    };
    L::with_book(memory, work).unwrap_or(0)
}

// In a chained book.
// Stays a function for each kind of book, here and below: C calls them, and has no type parameters.
#[unsafe(no_mangle)]
pub extern "C" fn dilkortxi_chained_look_ups(
    memory: &mut [u8],
    marked: &[u8],
    sought: &[u8],
    rounds: u32,
) -> u32
    ensures most { result ≤ rounds * (length sought.now / 32) }
    ensures none { length memory.old < 168 → result ≡ 0 }
    ensures stays { length memory.old < 168 → memory.new ≡ memory.old }
{
    look_ups::<Chained>(memory, marked, sought, rounds)
}

// In a tape.
#[unsafe(no_mangle)]
pub extern "C" fn dilkortxi_tape_look_ups(
    memory: &mut [u8],
    marked: &[u8],
    sought: &[u8],
    rounds: u32,
) -> u32
    ensures most { result ≤ rounds * (length sought.now / 32) }
    ensures none { length memory.old < 36 → result ≡ 0 }
    ensures stays { length memory.old < 36 → memory.new ≡ memory.old }
{
    look_ups::<Tape>(memory, marked, sought, rounds)
}

// How many redemptions a station over a chained book accepts in so many rounds; 0 where the memory holds no book.
#[unsafe(no_mangle)]
pub extern "C" fn dilkortxi_res2039_chained_redemptions(
    memory: &mut [u8],
    key: &[u8],
    tokens: &[u8],
    rounds: u32,
) -> u32
    ensures most { result ≤ rounds * (length tokens.now / 132) }
    ensures none { length memory.old < 168 → result ≡ 0 }
    ensures stays { length memory.old < 168 → memory.new ≡ memory.old }
{
    redeemed::<Chained, Residue>(memory, key, tokens, rounds)
}

// The same over a tape.
#[unsafe(no_mangle)]
pub extern "C" fn dilkortxi_res2039_tape_redemptions(
    memory: &mut [u8],
    key: &[u8],
    tokens: &[u8],
    rounds: u32,
) -> u32
    ensures most { result ≤ rounds * (length tokens.now / 132) }
    ensures none { length memory.old < 36 → result ≡ 0 }
    ensures stays { length memory.old < 36 → memory.new ≡ memory.old }
{
    redeemed::<Tape, Residue>(memory, key, tokens, rounds)
}

// Both in circ523.
#[unsafe(no_mangle)]
pub extern "C" fn dilkortxi_circ523_chained_redemptions(
    memory: &mut [u8],
    key: &[u8],
    tokens: &[u8],
    rounds: u32,
) -> u32
    ensures most { result ≤ rounds * (length tokens.now / 132) }
    ensures none { length memory.old < 168 → result ≡ 0 }
    ensures stays { length memory.old < 168 → memory.new ≡ memory.old }
{
    redeemed::<Chained, Point>(memory, key, tokens, rounds)
}

#[unsafe(no_mangle)]
pub extern "C" fn dilkortxi_circ523_tape_redemptions(
    memory: &mut [u8],
    key: &[u8],
    tokens: &[u8],
    rounds: u32,
) -> u32
    ensures most { result ≤ rounds * (length tokens.now / 132) }
    ensures none { length memory.old < 36 → result ≡ 0 }
    ensures stays { length memory.old < 36 → memory.new ≡ memory.old }
{
    redeemed::<Tape, Point>(memory, key, tokens, rounds)
}

// The last reply goes to the front of `out`, which must have room for the longest; 0 where it has not.
fn told_issued(issued: Issued, out: &mut [u8]) -> u32
    ensures most { result ≤ issued.accepted }
    ensures short { length out.old < 137 → result ≡ 0 }
    ensures kept { length out.old < 137 → out.new ≡ out.old }
    ensures rest { drop 137 out.new ≡ drop 137 out.old }
    ensures out { out.new ≡ issued_out issued.reply out.old }
{
    if out.len() < REPLY {
        return 0;
    }
    out[0..REPLY].copy_from_slice(&issued.reply);
    issued.accepted
}

// How often a station over a tape answers the request in so many rounds; the last reply goes to the front of `out`.
fn issued<G: Group>(
    memory: &mut [u8],
    key: &[u8],
    request: &[u8],
    nonce: &[u8],
    out: &mut [u8],
    rounds: u32,
) -> u32
    ensures most { result ≤ rounds }
    ensures none { length memory.old < 36 → result ≡ 0 }
    ensures stays { length memory.old < 36 → memory.new ≡ memory.old }
    ensures short { length out.old < 137 → result ≡ 0 }
    ensures kept { length out.old < 137 → out.new ≡ out.old }
    ensures rest { drop 137 out.new ≡ drop 137 out.old }
{
    let work = Issues {
        group: G::null(),
        key,
        request,
        nonce,
        rounds,
    };
    match Tape::with_book(memory, work) {
        Ok(issued) => told_issued(issued, out),
        Err(_) => 0,
    }
}

// In res2039.
#[unsafe(no_mangle)]
pub extern "C" fn dilkortxi_res2039_issues(
    memory: &mut [u8],
    key: &[u8],
    request: &[u8],
    nonce: &[u8],
    out: &mut [u8],
    rounds: u32,
) -> u32
    ensures most { result ≤ rounds }
    ensures none { length memory.old < 36 → result ≡ 0 }
    ensures stays { length memory.old < 36 → memory.new ≡ memory.old }
    ensures short { length out.old < 137 → result ≡ 0 }
    ensures kept { length out.old < 137 → out.new ≡ out.old }
    ensures rest { drop 137 out.new ≡ drop 137 out.old }
{
    issued::<Residue>(memory, key, request, nonce, out, rounds)
}

// In circ523.
#[unsafe(no_mangle)]
pub extern "C" fn dilkortxi_circ523_issues(
    memory: &mut [u8],
    key: &[u8],
    request: &[u8],
    nonce: &[u8],
    out: &mut [u8],
    rounds: u32,
) -> u32
    ensures most { result ≤ rounds }
    ensures none { length memory.old < 36 → result ≡ 0 }
    ensures stays { length memory.old < 36 → memory.new ≡ memory.old }
    ensures short { length out.old < 137 → result ≡ 0 }
    ensures kept { length out.old < 137 → out.new ≡ out.old }
    ensures rest { drop 137 out.new ≡ drop 137 out.old }
{
    issued::<Point>(memory, key, request, nonce, out, rounds)
}

// How often a shop, in so many rounds, blinds a batch and finishes it with the reply. The request goes to the front of
// `request`, the tokens to that of `tokens`.
#[unsafe(no_mangle)]
pub extern "C" fn dilkortxi_res2039_batches<'a>(
    pk: &'a [u8],
    seeds: &'a [u8],
    blinds: &'a [u8],
    reply: &'a [u8],
    request: &mut [u8],
    tokens: &mut [u8],
    rounds: u32,
) -> u32
    ensures { result ≤ rounds }
{
    let order = Order { pk, seeds, blinds };
    orders::<Residue>(order, reply, request, tokens, rounds)
}

// The same in circ523.
#[unsafe(no_mangle)]
pub extern "C" fn dilkortxi_circ523_batches<'a>(
    pk: &'a [u8],
    seeds: &'a [u8],
    blinds: &'a [u8],
    reply: &'a [u8],
    request: &mut [u8],
    tokens: &mut [u8],
    rounds: u32,
) -> u32
    ensures { result ≤ rounds }
{
    let order = Order { pk, seeds, blinds };
    orders::<Point>(order, reply, request, tokens, rounds)
}
