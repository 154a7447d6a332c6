// The bytes that travel between shop, station and probe: readers and writers for both ends, written once for
// every kind of group.
//
//   shop   -- write_request -->  read_request  station       request:  type, epoch, n, n codes
//   shop     read_reply <-- write_reply --     station       reply:    type, epoch, n, n codes, c, s
//   probe  -- write_token -->  read_token      station       token:    type, epoch, nonce, context, key id, authenticator
//
// A message is read once, at the edge: what a reader answers are the fields, and nobody above counts bytes.
// Codes stay bytes here; whoever computes with an item decodes it. `docs/MESSAGES.md` has every byte.
#![tactic(auto)]

ghost use Rattle.std.specs.Prelude.{◌≡◌, ℕ, ◌+◌, ◌*◌, ◌≤◌, List, length, take, IfOk};
ghost use Rattle.numbers.specs.Writing.{room, Put};
ghost use Rattle.messages.specs.Answers.{laid};
ghost use Rattle.messages.specs.Messages.{header_of, front_of, read_request as request_read, read_reply as reply_read, split_reply as reply_split, request_length, reply_length, item_at, head_bytes, request_bytes, reply_bytes, token_input_of, token_input_bytes, token_bytes, read_token as token_read, writes_request, writes_reply, writes_token};
ghost use Rattle.messages.specs.Laws.{RoundTrip, OneEncoding, Placed, TokenTrip};
ghost use Rattle.messages.specs.Views.{header_seen, request_seen, reply_seen, split_seen, item_seen, token_seen, batch, answers};

use faults::WireFault;
use group::Group;
use numbers::writer::Writer;

// What stands at the front of a request and of a reply.
// Stays with a number for its kind, as a token does: a maker's kind of group brings its own, and no enum could list them.
#[derive(Clone, Copy)]
pub struct Header {
    pub kind: u16,
    pub epoch: u16,
    pub count: u8,
}

// A request: the codes of its items stand in a row.
// Stays with its count beside them: how long a code is, and so how many there are, only a kind of group says.
#[derive(Clone, Copy)]
pub struct Request<'a> {
    pub epoch: u16,
    pub count: u8,
    pub items: &'a [u8],
}

// A reply: the codes of the answers in a row, and the codes of the proof's two scalars.
#[derive(Clone, Copy)]
pub struct Reply<'a> {
    pub epoch: u16,
    pub count: u8,
    pub items: &'a [u8],
    pub challenge: &'a [u8],
    pub response: &'a [u8],
}

// A token, with the input that its authenticator is of.
#[derive(Clone, Copy)]
pub struct Token<'a> {
    pub kind: u16,
    pub epoch: u16,
    pub nonce: [u8; 32],
    pub context: &'a [u8],
    pub key_id: &'a [u8],
    pub authenticator: &'a [u8],
    pub input: &'a [u8],
}

// The number in two bytes.
fn number(high: u8, low: u8) -> u16
    ensures { result ≡ high * 256 + low }
{
    u16::from_be_bytes([high, low])
}

// Takes type, epoch and n off the front of a message, and hands on the rest.
pub fn take_header(message: &[u8]) -> Result<(Header, &[u8]), WireFault>
    ensures { header_seen result ≡ header_of message.now }
{
    let [k1, k2, e1, e2, n, rest @ ..] = message else {
        return Err(WireFault::WrongLength);
    };
    let front = Header {
        kind: number(*k1, *k2),
        epoch: number(*e1, *e2),
        count: *n,
    };
    Ok((front, rest))
}

// The front of a batch: of this kind of group, with 1 to 16 items.
fn batch_front<G: Group>(message: &[u8]) -> Result<(Header, &[u8]), WireFault>
    ensures { header_seen result ≡ front_of G.model message.now }
{
    let (front, rest) = take_header(message)?;
    if front.kind != G::kind() {
        return Err(WireFault::WrongType);
    }
    if front.count == 0 || front.count > 16 {
        return Err(WireFault::WrongCount);
    }
    Ok((front, rest))
}

// Reads a request.
pub fn read_request<G: Group>(message: &[u8]) -> Result<Request<'_>, WireFault>
    ensures { request_seen result ≡ request_read G.model message.now }
{
    let (front, rest) = batch_front::<G>(message)?;
    if rest.len() != front.count as usize * G::element_width() {
        return Err(WireFault::WrongLength);
    }
    Ok(Request {
        epoch: front.epoch,
        count: front.count,
        items: rest,
    })
}

// Parts what comes after the front of a reply of so many items: the codes, c and s.
pub fn split_reply<G: Group>(count: u8, rest: &[u8]) -> Result<(&[u8], &[u8], &[u8]), WireFault>
    ensures { split_seen result ≡ reply_split G.model count rest.now }
{
    let codes = count as usize * G::element_width();
    let width = G::scalar_width();
    if rest.len() != codes + 2 * width {
        return Err(WireFault::WrongLength);
    }
    let (items, proof) = rest.split_at(codes);
    let (challenge, response) = proof.split_at(width);
    Ok((items, challenge, response))
}

// Reads a reply.
pub fn read_reply<G: Group>(message: &[u8]) -> Result<Reply<'_>, WireFault>
    ensures { reply_seen result ≡ reply_read G.model message.now }
{
    let (front, rest) = batch_front::<G>(message)?;
    let (items, challenge, response) = split_reply::<G>(front.count, rest)?;
    Ok(Reply {
        epoch: front.epoch,
        count: front.count,
        items,
        challenge,
        response,
    })
}

// How many bytes a request and a reply of so many items have.
pub fn request_len<G: Group>(count: u8) -> usize
    ensures { result ≡ request_length G.model count }
{
    5 + count as usize * G::element_width()
}

pub fn reply_len<G: Group>(count: u8) -> usize
    ensures { result ≡ reply_length G.model count }
{
    5 + count as usize * G::element_width() + 2 * G::scalar_width()
}

// The code of item i, counted from 0, of codes in a row.
pub fn item<G: Group>(items: &[u8], i: usize) -> Option<&[u8]>
    ensures { item_seen result ≡ item_at G.model items.now i }
{
    // Stays an index: `items.chunks_exact(width).nth(i)` steps over every item before it, and it was left open
    // that what it gives stands at i times the width.
    let width = G::element_width();
    if i >= items.len() / width {
        return None;
    }
    let at = i * width;
    Some(&items[at..at + width])
}

// Puts type, epoch and n in their bytes.
fn put_head<G: Group>(message: &mut Writer<'_>, epoch: u16, count: u8)
    requires { message.old.len + 5 ≤ room message.old }
    ensures { Put message.old message.new (head_bytes G.model.kind epoch count) }
{
    message.put(&G::kind().to_be_bytes());
    message.put(&epoch.to_be_bytes());
    message.put(&[count]);
}

// Writes a request to the front of the outlet, and answers how many bytes it has.
pub fn write_request<G: Group>(request: Request<'_>, out: &mut [u8]) -> Result<usize, WireFault>
    ensures written { result ≡ writes_request G.model (batch request.entry) (length out.old) }
    ensures out { out.new ≡ laid result (request_bytes G.model (batch request.entry)) out.old }
{
    if request.count == 0 || request.count > 16 {
        return Err(WireFault::WrongCount);
    }
    if request.items.len() != request.count as usize * G::element_width() {
        return Err(WireFault::WrongLength);
    }
    let len = request_len::<G>(request.count);
    if out.len() < len {
        return Err(WireFault::ShortOutlet);
    }
    let mut message = Writer::new(out);
    put_head::<G>(&mut message, request.epoch, request.count);
    message.put(request.items);
    Ok(len)
}

// Writes a reply to the front of the outlet, and answers how many bytes it has.
pub fn write_reply<G: Group>(reply: Reply<'_>, out: &mut [u8]) -> Result<usize, WireFault>
    ensures written { result ≡ writes_reply G.model (answers reply.entry) (length out.old) }
    ensures out { out.new ≡ laid result (reply_bytes G.model (answers reply.entry)) out.old }
{
    if reply.count == 0 || reply.count > 16 {
        return Err(WireFault::WrongCount);
    }
    if reply.items.len() != reply.count as usize * G::element_width() {
        return Err(WireFault::WrongLength);
    }
    let width = G::scalar_width();
    if reply.challenge.len() != width || reply.response.len() != width {
        return Err(WireFault::WrongLength);
    }
    let len = reply_len::<G>(reply.count);
    if out.len() < len {
        return Err(WireFault::ShortOutlet);
    }
    let mut message = Writer::new(out);
    put_head::<G>(&mut message, reply.epoch, reply.count);
    message.put(reply.items);
    message.put(reply.challenge);
    message.put(reply.response);
    Ok(len)
}

// Writes the parts of a token's input.
fn lay_input(
    out: &mut [u8; 100],
    kind: u16,
    epoch: u16,
    nonce: &[u8],
    context: &[u8],
    key_id: &[u8; 32],
)
    requires nonce { length nonce.now ≡ 32 }
    requires context { length context.now ≡ 32 }
    ensures { out.new ≡ token_input_bytes kind epoch nonce.now context.now key_id.now }
{
    let mut input = Writer::new(out);
    input.put(&kind.to_be_bytes());
    input.put(&epoch.to_be_bytes());
    input.put(nonce);
    input.put(context);
    input.put(key_id);
}

// The input of a token, which a shop blinds and an authenticator is of.
// Stays with its parts one by one: a struct of them would be made for this call and be taken apart in it.
pub fn token_input(
    kind: u16,
    epoch: u16,
    nonce: &[u8],
    context: &[u8],
    key_id: &[u8; 32],
) -> Result<[u8; 100], WireFault>
    ensures { result ≡ token_input_of kind epoch nonce.now context.now key_id.now }
{
    if nonce.len() != 32 || context.len() != 32 {
        return Err(WireFault::WrongLength);
    }
    let mut input = [0; 100];
    lay_input(&mut input, kind, epoch, nonce, context, key_id);
    Ok(input)
}

// Reads a token.
pub fn read_token(bytes: &[u8]) -> Result<Token<'_>, WireFault>
    ensures fields { token_seen result ≡ token_read bytes.now }
    ensures input { IfOk result (λ t. t.input.now ≡ take 100 bytes.now) }
{
    if bytes.len() != 132 {
        return Err(WireFault::WrongLength);
    }
    let mut nonce = [0; 32];
    nonce.copy_from_slice(&bytes[4..36]);
    Ok(Token {
        kind: number(bytes[0], bytes[1]),
        epoch: number(bytes[2], bytes[3]),
        nonce,
        context: &bytes[36..68],
        key_id: &bytes[68..100],
        authenticator: &bytes[100..132],
        input: &bytes[0..100],
    })
}

// Writes a token to the front of the outlet, and answers how many bytes it has.
pub fn write_token(
    input: &[u8; 100],
    authenticator: &[u8; 32],
    out: &mut [u8],
) -> Result<usize, WireFault>
    ensures written { result ≡ writes_token (length out.old) }
    ensures out { out.new ≡ laid result (token_bytes input.now authenticator.now) out.old }
{
    if out.len() < 132 {
        return Err(WireFault::ShortOutlet);
    }
    let mut token = Writer::new(out);
    token.put(input);
    token.put(authenticator);
    Ok(132)
}

// A batch that one end writes, the other end reads as that batch.
pub fn round_trip_holds<G: Group>()
    ensures { RoundTrip G.model }
{}

// Only its one encoding is read.
pub fn one_encoding_holds<G: Group>()
    ensures { OneEncoding G.model }
{}

// Each item's code stands at its place.
pub fn places_hold<G: Group>()
    ensures { Placed G.model }
{}

// A token is read as it was written, and only its one encoding is read.
pub fn token_round_trip_holds()
    ensures { TokenTrip }
{}
