// The calls behind the bench program's commands on groups and tokens, in the group that a script has chosen.
//
//   script --Kind, bytes--> commands --G--> group, token
//
// Each call is written once for every kind of group; `Kind` is the choice that a line `group NAME` makes.
#![tactic(auto, unfolding(crate::specs::Calls::decoded, crate::specs::Calls::mapped, crate::specs::Calls::based, crate::specs::Calls::decode_in, crate::specs::Calls::map_in, crate::specs::Calls::base_in, crate::specs::Calls::input_in, crate::specs::Calls::direct_in))]

ghost use Rattle.std.specs.Prelude.{◌≡◌};
ghost use Rattle.commands.specs.Calls.{decoded, mapped, based, coded, kind_name, kind_of, decode_in, map_in, base_in, input_in, direct_in};

use circ523::Point;
use faults::{BatchFault, GroupFault, WireFault};
use group::Group;
use numbers::Code;
use res2039::Residue;
use scratch::ENOUGH;

// Whether bytes are the code of an element.
pub fn decode<G: Group>(code: &[u8]) -> Result<(), BatchFault>
    ensures { result ≡ decoded G.model code.now }
{
    if code.len() != G::element_width() {
        return Err(BatchFault::Wire(WireFault::WrongLength));
    }
    let _element = G::decode(code)?;
    Ok(())
}

// The code of the element that 32 bytes map to.
pub fn map<G: Group>(bytes: &[u8]) -> Result<Code, BatchFault>
    ensures { coded result ≡ mapped G.model bytes.now }
{
    let Ok(bytes) = <&[u8; 32]>::try_from(bytes) else {
        return Err(BatchFault::Wire(WireFault::WrongLength));
    };
    Ok(G::map(bytes).encode())
}

// The code of a scalar's base multiple.
pub fn base<G: Group>(scalar: &[u8]) -> Result<Code, BatchFault>
    ensures { coded result ≡ based G.model scalar.now }
{
    if scalar.len() != G::scalar_width() {
        return Err(BatchFault::Wire(WireFault::WrongLength));
    }
    let s = G::decode_scalar(scalar)?;
    Ok(G::base_multiple(s).encode())
}

// The groups that a script chooses from.
#[derive(Clone, Copy, PartialEq, Eq, Debug)]
pub enum Kind {
    Res2039,
    Circ523,
}

// All the kinds.
const KINDS: [Kind; 2] = [Kind::Res2039, Kind::Circ523];

impl Kind {
    // The kind of this name.
    // Stays a function, as `Shelf::of` and `Command::of` of a script: a trait for the three would have this one line.
    pub fn of(word: &[u8]) -> Option<Kind>
        ensures { result ≡ kind_of word.now }
    {
        KINDS.iter().copied().find(|kind| word == kind.name())
    }

    // The name of the group.
    fn name(self) -> &'static [u8]
        ensures { result.now ≡ kind_name self }
    {
        match self {
            Kind::Res2039 => Residue::name(),
            Kind::Circ523 => Point::name(),
        }
    }

    // Stays a match of two arms in each call: a trait with a method that is generic over the group would need a
    // struct with fields and an impl for every call.
    pub fn decode(self, code: &[u8]) -> Result<(), BatchFault>
        ensures { result ≡ decode_in self code.now }
    {
        match self {
            Kind::Res2039 => decode::<Residue>(code),
            Kind::Circ523 => decode::<Point>(code),
        }
    }

    pub fn map(self, bytes: &[u8]) -> Result<Code, BatchFault>
        ensures { coded result ≡ map_in self bytes.now }
    {
        match self {
            Kind::Res2039 => map::<Residue>(bytes),
            Kind::Circ523 => map::<Point>(bytes),
        }
    }

    pub fn base(self, scalar: &[u8]) -> Result<Code, BatchFault>
        ensures { coded result ≡ base_in self scalar.now }
    {
        match self {
            Kind::Res2039 => base::<Residue>(scalar),
            Kind::Circ523 => base::<Point>(scalar),
        }
    }

    // The input of a token, with its public key as a code.
    pub fn input(
        self,
        epoch: u16,
        nonce: &[u8],
        context: &[u8],
        pk: &[u8],
    ) -> Result<[u8; 100], BatchFault>
        ensures { result ≡ input_in self epoch nonce.now context.now pk.now }
    {
        match self {
            Kind::Res2039 => token::input::<Residue>(epoch, nonce, context, pk),
            Kind::Circ523 => token::input::<Point>(epoch, nonce, context, pk),
        }
    }

    // The authenticator of an input by the key itself, with a scratch that is long enough.
    pub fn direct(self, key: &[u8], input: &[u8]) -> Result<[u8; 32], BatchFault>
        ensures { result ≡ direct_in self key.now input.now }
    {
        let mut scratch = [0; ENOUGH];
        match self {
            Kind::Res2039 => token::direct::<Residue>(&mut scratch, key, input),
            Kind::Circ523 => token::direct::<Point>(&mut scratch, key, input),
        }
    }
}
