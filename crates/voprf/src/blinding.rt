// What shop and station compute of one token.
ghost use Rattle.std.specs.Prelude.{◌≡◌, ℕ, ◌+◌, ◌≤◌, length};
ghost use Rattle.voprf.specs.Blinding.{public_key, blinded, answered, unblinded, direct as by_key, UnblindingGivesDirect, EveryInputFits};

use group::{Group, multiple};
use hashing::{authenticator, hash_to_group};

// The public key of a key.
pub fn public<G: Group>(key: G::NonZero) -> G
    ensures { result ≡ public_key G.model key }
{
    G::base_multiple(G::scalar_of(key))
}

// What a shop sends for an input, under a blind.
pub fn blind<G: Group>(bytes: &mut [u8], blind: G::NonZero, input: &[u8]) -> G
    requires room { length input.now + 45 ≤ length bytes.old }
    requires few { length input.now ≤ 4000 }
    ensures { result ≡ blinded G.model blind input.now }
{
    multiple(G::scalar_of(blind), hash_to_group::<G>(bytes, input))
}

// What a station answers to an element.
pub fn evaluate<G: Group>(key: G::NonZero, sent: G) -> G
    ensures { result ≡ answered G.model key sent }
{
    multiple(G::scalar_of(key), sent)
}

// What a shop makes of an answer, under the blind that it sent with.
pub fn unblind<G: Group>(blind: G::NonZero, got: G) -> G
    ensures { result ≡ unblinded G.model blind got }
{
    multiple(G::invert(G::scalar_of(blind)), got)
}

// The authenticator of an input by the key itself.
pub fn direct<G: Group>(bytes: &mut [u8], key: G::NonZero, input: &[u8]) -> [u8; 32]
    requires room { length input.now + 45 ≤ length bytes.old }
    requires few { length input.now ≤ 4000 }
    ensures { result ≡ by_key G.model key input.now }
{
    let mapped = hash_to_group::<G>(bytes, input);
    authenticator(bytes, input, evaluate(key, mapped))
}

// Unblinding an answer gives what the key gives directly.
pub fn unblinding_gives_direct<G: Group>()
    ensures { UnblindingGivesDirect G.model }
{}

// A blinded element says nothing of its input.
pub fn every_input_fits<G: Group>()
    ensures { EveryInputFits G.model }
{}
