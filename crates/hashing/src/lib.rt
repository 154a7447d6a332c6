// Hashing for every kind of group: to scalars, to elements, key ids and authenticators.
//
//   message, label, context string, length --digest--> 32 bytes --reduce--> scalar, or --map--> element
//
// The bytes to be hashed are put together by a `Writer` over a buffer that the caller lends. Client and station
// lend the same scratch again and again, and zero it when they are done.
#![tactic(auto)]

ghost use Rattle.std.specs.Prelude.{◌≡◌, ℕ, ◌+◌, ◌-◌, ◌*◌, ◌/◌, ◌%◌, ◌^◌, ◌<◌, ◌≤◌, ◌++◌, length, codes};
ghost use Rattle.digest.specs.Sha256.{sha256};
ghost use Rattle.numbers.specs.Writing.{put_so_far, room, Put};
ghost use Rattle.hashing.specs.Hashing.{context_string, framed_code, tagged, hash_to_scalar as scalar_hash, hash_to_group as group_hash, framed, key_id as id_of, authenticator as authentic};

use digest::digest;
use group::Group;
use numbers::writer::Writer;

// The digest of bytes that are known to be few enough.
pub fn hash(bytes: &[u8]) -> [u8; 32]
    requires { length bytes.now ≤ 4096 }
    ensures { result ≡ sha256 bytes.now }
{
    digest(bytes).unwrap()
}

// The context string: which protocol, which group, which digest.
pub fn put_context<G: Group>(transcript: &mut Writer<'_>)
    requires { transcript.old.len + 31 ≤ room transcript.old }
    ensures put { Put transcript.old transcript.new (context_string G.model) }
    ensures len { (transcript.old.len ≤ transcript.new.len) × (transcript.new.len ≤ transcript.old.len + 31) }
{
    transcript.put(b"BBTV4-");
    transcript.put(b"\x01-");
    transcript.put(G::name());
    transcript.put(b"-SHA256");
}

// A code with its length in front.
pub fn put_framed<G: Group>(transcript: &mut Writer<'_>, code: &[u8])
    requires { transcript.old.len + 2 + length code.now ≤ room transcript.old }
    ensures put { Put transcript.old transcript.new (framed_code G.model code.now) }
    ensures len { transcript.new.len ≡ transcript.old.len + 2 + length code.now }
{
    transcript.put(&(G::element_width() as u16).to_be_bytes());
    transcript.put(code);
}

// An element, as its code with its length in front.
pub fn put_element<G: Group>(transcript: &mut Writer<'_>, p: G)
    requires { transcript.old.len + 10 ≤ room transcript.old }
    ensures put { Put transcript.old transcript.new (framed G.model p) }
    ensures len { (transcript.old.len ≤ transcript.new.len) × (transcript.new.len ≤ transcript.old.len + 10) }
{
    put_framed::<G>(transcript, p.encode().as_slice());
}

// The digest of what was put, under a label.
fn hash_tagged<G: Group>(transcript: &mut Writer<'_>, label: &[u8]) -> [u8; 32]
    requires room { transcript.old.len + 45 ≤ room transcript.old }
    requires few { transcript.old.len ≤ 4000 }
    requires label { length label.now ≤ 13 }
    ensures hash { result ≡ sha256 (tagged G.model label.now (put_so_far transcript.old)) }
    ensures lent { transcript.new.bytes.ghost_name ≡ transcript.old.bytes.ghost_name }
    ensures room { room transcript.new ≡ room transcript.old }
    ensures len { (transcript.old.len ≤ transcript.new.len) × (transcript.new.len ≤ transcript.old.len + 45) }
{
    let message = transcript.as_slice().len();
    transcript.put(label);
    put_context::<G>(transcript);
    let added = transcript.as_slice().len() - message;
    transcript.put(&[added as u8]);
    hash(transcript.as_slice())
}

// What was put, hashed to a scalar.
pub fn hash_to_scalar<G: Group>(transcript: &mut Writer<'_>) -> G::Scalar
    requires room { transcript.old.len + 45 ≤ room transcript.old }
    requires few { transcript.old.len ≤ 4000 }
    ensures hash { result ≡ scalar_hash G.model (put_so_far transcript.old) }
    ensures lent { transcript.new.bytes.ghost_name ≡ transcript.old.bytes.ghost_name }
    ensures room { room transcript.new ≡ room transcript.old }
    ensures len { (transcript.old.len ≤ transcript.new.len) × (transcript.new.len ≤ transcript.old.len + 45) }
{
    G::reduce(&hash_tagged::<G>(transcript, b"HashToScalar-"))
}

// An input, hashed to an element.
// Stays with its two `requires`, which the steps over it ask too: inputs of any length up to 4,000 may come, in any
// buffer with room, and a type of one length would shut out the others.
pub fn hash_to_group<G: Group>(bytes: &mut [u8], input: &[u8]) -> G
    requires room { length input.now + 45 ≤ length bytes.old }
    requires few { length input.now ≤ 4000 }
    ensures { result ≡ group_hash G.model input.now }
{
    let mut transcript = Writer::new(bytes);
    transcript.put(input);
    G::map(&hash_tagged::<G>(&mut transcript, b"HashToGroup-"))
}

// What stands for a public key in a token.
pub fn key_id<G: Group>(pk: G) -> [u8; 32]
    ensures { result ≡ id_of G.model pk }
{
    hash(pk.encode().as_slice())
}

// The authenticator of an input whose evaluated element is u.
pub fn authenticator<G: Group>(bytes: &mut [u8], input: &[u8], u: G) -> [u8; 32]
    requires room { length input.now + 20 ≤ length bytes.old }
    requires few { length input.now ≤ 4000 }
    ensures { result ≡ authentic G.model input.now u }
{
    let mut transcript = Writer::new(bytes);
    transcript.put(&(input.len() as u16).to_be_bytes());
    transcript.put(input);
    put_element(&mut transcript, u);
    transcript.put(b"Finalize");
    hash(transcript.as_slice())
}
