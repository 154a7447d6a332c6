// What a token must be before its pair is marked.
ghost use Rattle.std.specs.Prelude.{◌≡◌, ◌≤◌, length};
ghost use Rattle.ring.specs.Places.{places, key_in};
ghost use Rattle.station.specs.Redeeming.{authentic as authentic_by, redeemable};

use faults::{GroupFault, StationFault, TokenFault, WireFault};
use group::Group;
use hashing::{authenticator, hash_to_group, key_id};
use messages::read_token;
use ring::Ring;
use scratch::ENOUGH;
use token::is_null;
use voprf::blinding::{evaluate, public};

// What a token says of itself must fit the key of its epoch: key id, mapped input, authenticator.
// Stays a slice of enough bytes: with `first_chunk_mut::<ENOUGH>()` in `redeemed_pair` and an array here, `search` leaves
// that function's returns after the loan open, from `returns-in_err-token` on.
fn authentic<G: Group>(
    bytes: &mut [u8],
    key: G::NonZero,
    id: &[u8],
    told: &[u8],
    input: &[u8],
) -> Result<(), StationFault>
    requires room { 1024 ≤ length bytes.old }
    requires input { length input.now ≡ 100 }
    ensures { result ≡ authentic_by G.model key id.now told.now input.now }
{
    if id != key_id(public::<G>(key)).as_slice() {
        return Err(StationFault::Token(TokenFault::OtherKey));
    }
    let mapped = hash_to_group::<G>(bytes, input);
    if is_null(mapped) {
        return Err(StationFault::Group(GroupFault::NullInput));
    }
    if told != authenticator(bytes, input, evaluate(key, mapped)).as_slice() {
        return Err(StationFault::Token(TokenFault::OtherAuthenticator));
    }
    Ok(())
}

// The pair of a token that may be redeemed, or the first fault.
pub fn redeemed_pair<G: Group>(
    ring: &Ring<G::NonZero>,
    bytes: &mut [u8],
    token: &[u8],
) -> Result<(u16, [u8; 32]), StationFault>
    ensures { result ≡ redeemable G.model (length bytes.old) (key_in (places ring.now)) token.now }
{
    if bytes.len() < ENOUGH {
        return Err(StationFault::Wire(WireFault::ShortScratch));
    }
    let token = read_token(token)?;
    if token.kind != G::kind() {
        return Err(StationFault::Wire(WireFault::WrongType));
    }
    let key = ring.key(token.epoch)?;
    authentic::<G>(bytes, key, token.key_id, token.authenticator, token.input)?;
    Ok((token.epoch, token.nonce))
}
