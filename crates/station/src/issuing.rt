// Answering a request.
ghost use Rattle.std.specs.Prelude.{◌≡◌, ℕ, ◌*◌, ◌<◌, ◌≤◌, [], length, take, IfOk, Ok, Err, MatchResult};
ghost use Rattle.messages.specs.Answers.{over};
ghost use Rattle.messages.specs.Messages.{reply_length};
ghost use Rattle.messages.specs.Views.{batch};
ghost use Rattle.numbers.specs.Writing.{put_so_far, room};
ghost use Rattle.ring.specs.Places.{places, key_in};
ghost use Rattle.token.specs.Tokens.{element_of};
ghost use Rattle.station.specs.Issuing.{of_item, order_seen, Sound, accepted, answer_codes, replied, reply_counted, reply_laid};

use faults::{BatchFault, StationFault, WireFault};
use group::Group;
use messages::{Reply, Request, read_request, reply_len, write_reply};
use numbers::writer::Writer;
use ring::Ring;
use scratch::ENOUGH;
use token::{element, nonzero};
use voprf::blinding::{evaluate, public};
use voprf::proving::prove;

// The checks before any item, in their order: the request, its epoch's key, and the proof's nonce.
pub fn accept<'a, G: Group>(
    ring: &Ring<G::NonZero>,
    scratch: usize,
    request: &'a [u8],
    nonce: &[u8],
    outlet: usize,
) -> Result<(Request<'a>, G::NonZero, G::NonZero), StationFault>
    ensures answer { order_seen result ≡ accepted G.model scratch (key_in (places ring.now)) request.now nonce.now outlet }
    ensures known { IfOk result (λ x. Sound G.model scratch outlet (batch x.0)) }
{
    if scratch < ENOUGH {
        return Err(StationFault::Wire(WireFault::ShortScratch));
    }
    let request = read_request::<G>(request)?;
    let key = ring.key(request.epoch)?;
    if nonce.len() != G::scalar_width() {
        return Err(StationFault::Wire(WireFault::WrongLength));
    }
    let nonce = nonzero::<G>(nonce)?;
    if outlet < reply_len::<G>(request.count) {
        return Err(StationFault::Wire(WireFault::ShortOutlet));
    }
    Ok((request, key, nonce))
}

// The element of an item's code, which must not be the null's; a fault becomes the item's, which counts from 1.
fn item<G: Group>(place: u8, code: &[u8]) -> Result<G, BatchFault>
    requires { place < 16 }
    ensures { result ≡ of_item place (element_of G.model code.now) }
{
    element::<G>(code).map_err(|fault| fault.of_item(place + 1))
}

// Puts the codes of the answers one behind the other.
fn answer_items<G: Group>(
    key: G::NonZero,
    items: &[u8],
    count: u8,
    codes: &mut Writer<'_>,
) -> Result<(), BatchFault>
    requires few { count ≤ 16 }
    requires whole { length items.now ≡ count * G.model.element_width }
    requires none { codes.old.len ≡ 0 }
    requires room { room codes.old ≡ 128 }
    ensures codes { MatchResult result (λ _. answer_codes G.model key 0 count items.now [] ≡ Ok (put_so_far codes.new)) (λ f. answer_codes G.model key 0 count items.now [] ≡ Err f) }
    ensures len { IfOk result (λ _. codes.new.len ≡ count * G.model.element_width) }
{
    for (place, code) in (0..count).zip(items.chunks_exact(G::element_width())) {
        let sent = item::<G>(place, code)?;
        codes.put(evaluate(key, sent).encode().as_slice());
    }
    Ok(())
}

// Writes the reply to a request that may be answered to the front of the outlet, and answers its length.
pub fn reply<G: Group>(
    bytes: &mut [u8],
    request: Request<'_>,
    key: G::NonZero,
    nonce: G::NonZero,
    outlet: &mut [u8],
) -> Result<usize, BatchFault>
    requires { Sound G.model (length bytes.old) (length outlet.old) (batch request) }
    ensures answer { result ≡ reply_counted (replied G.model (record { batch = batch request.entry; key = key; nonce = nonce })) }
    ensures outlet { outlet.new ≡ reply_laid (replied G.model (record { batch = batch request.entry; key = key; nonce = nonce })) outlet.old }
{
    let mut buffer = [0; 128];
    let mut codes = Writer::new(&mut buffer);
    answer_items::<G>(key, request.items, request.count, &mut codes)?;
    let items = codes.as_slice();
    let (c, s) = prove::<G>(bytes, key, nonce, public(key), request.items, items)?;
    let len = write_reply::<G>(
        Reply {
            epoch: request.epoch,
            count: request.count,
            items,
            challenge: G::encode_scalar(c).as_slice(),
            response: G::encode_scalar(s).as_slice(),
        },
        outlet,
    )?;
    Ok(len)
}
