// One token: its input, its authenticator by the key itself, and what makes it good.
//
// Client and station work on whole batches; a tester who has a key and an input asks here what the token of it
// must be. The definition of a good token, `Good` in specs/, is the one that everything above uses.
#![tactic(auto)]

ghost use Rattle.std.specs.Prelude.{◌≡◌, ◌≤◌, length, replicate};
ghost use Rattle.token.specs.Tokens.{is_null as null_test, element_of, key_of, input_answer, direct_answer};

use faults::{BatchFault, GroupFault, WireFault};
use group::Group;
use hashing::{authenticator, hash_to_group, key_id};
use messages::token_input;
use scratch::{ENOUGH, Scratch};
use voprf::blinding::evaluate;

// Whether an element is the null.
pub fn is_null<G: Group>(p: G) -> bool
    ensures { result ≡ null_test G.model p }
{
    p.same(G::null())
}

// The element of a code; the code of the null is refused.
pub fn element<G: Group>(code: &[u8]) -> Result<G, GroupFault>
    ensures { result ≡ element_of G.model code.now }
{
    let p = G::decode(code)?;
    if is_null(p) {
        return Err(GroupFault::NullElement);
    }
    Ok(p)
}

// The nonzero scalar of a code: a key, a blind or a proof nonce.
pub fn nonzero<G: Group>(code: &[u8]) -> Result<G::NonZero, GroupFault>
    ensures { result ≡ key_of G.model code.now }
{
    G::nonzero(G::decode_scalar(code)?)
}

// The input of the token for an epoch, a nonce and a context, under a public key.
pub fn input<G: Group>(
    epoch: u16,
    nonce: &[u8],
    context: &[u8],
    pk: &[u8],
) -> Result<[u8; 100], BatchFault>
    ensures { result ≡ input_answer G.model epoch nonce.now context.now pk.now }
{
    if nonce.len() != 32 || context.len() != 32 || pk.len() != G::element_width() {
        return Err(BatchFault::Wire(WireFault::WrongLength));
    }
    let pk = element::<G>(pk)?;
    let id = key_id(pk);
    Ok(token_input(G::kind(), epoch, nonce, context, &id)?)
}

// The authenticator of an input by the key itself.
pub fn direct<G: Group>(
    scratch: &mut [u8],
    key: &[u8],
    input: &[u8],
) -> Result<[u8; 32], BatchFault>
    ensures answer { result ≡ direct_answer G.model (length scratch.old) key.now input.now }
    ensures clean { scratch.new ≡ replicate (length scratch.old) 0 }
{
    let guard = Scratch { bytes: scratch };
    let Some(work) = guard.bytes.first_chunk_mut::<ENOUGH>() else {
        return Err(BatchFault::Wire(WireFault::ShortScratch));
    };
    if key.len() != G::scalar_width() {
        return Err(BatchFault::Wire(WireFault::WrongLength));
    }
    if input.len() != 100 {
        return Err(BatchFault::Wire(WireFault::WrongLength));
    }
    let key = nonzero::<G>(key)?;
    let mapped = hash_to_group::<G>(work, input);
    if is_null(mapped) {
        return Err(BatchFault::Group(GroupFault::NullInput));
    }
    Ok(authenticator(work, input, evaluate(key, mapped)))
}
