// Groups of a small prime order: one interface for every kind, and what is written once for all of them.
//
// A kind of group is a type of elements that implements `Group`. All that it means stands in one ghost
// member, `model`, a record with its laws as fields; each method's contract says what the method answers
// over that model. `docs/GROUPS.md` says what whoever adds a kind must give and show.
//
//   kind of group (res2039, circ523, ..)  implements  Group
//   multiple, weighted_sum                are written here, once for every kind
//   blinding, proofs, client, station     use these alone
#![tactic(auto)]

ghost use Rattle.std.specs.Prelude.{◌≡◌, ℕ, ◌+◌, ◌*◌, ◌%◌, ◌<◌, List, Decides};
ghost use Rattle.std.specs.Option.{ok_or};
ghost use Rattle.faults.specs.declared.GroupFault.{GroupFault};
ghost use Rattle.numbers.specs.Bytes.{code_bytes};
ghost use Rattle.scalar.specs.Scalars.{added, subtracted, multiplied, bit_at, scalar_code, scalar_of, reduced};
ghost use Rattle.group.specs.Model.{Model};
ghost use Rattle.group.specs.Elements.{null, generator, sum, opposite, base_multiple, multiple};
ghost use Rattle.group.specs.Weighted.{weighted_sum};
ghost use Rattle.group.specs.Theorems.{Lawful, Unblinds, OneScalar, Weighs};

use faults::{GroupFault, WireFault};
use numbers::Code;
use scalar::Reckoner;

// A kind of group. The type itself is the type of its elements: every element that exists lies in the
// group, by the type's invariant, and nothing above checks it again.
pub trait Group: Copy {
    // Its scalars, those that are known not to be zero, and what reckons with them.
    type Scalar: Copy;

    type NonZero: Copy;

    type Order: Reckoner<Scalar = Self::Scalar, NonZero = Self::NonZero>;

    // What the kind means, with the laws that it keeps.
    ghost model: { Model Self Self.Scalar Self.NonZero };

    // The type that messages carry.
    fn kind() -> u16
        ensures { result ≡ model.kind };

    // The name that hashes carry.
    fn name() -> &'static [u8]
        ensures { result.now ≡ model.name };

    // The reckoning with its scalars.
    fn order() -> Self::Order
        ensures { Self.Order.scalars result ≡ model.scalars };

    // Elements, and how many bytes the code of one has.
    fn element_width() -> usize
        ensures { result ≡ model.element_width };

    fn null() -> Self
        ensures { result ≡ null model };

    fn generator() -> Self
        ensures { result ≡ generator model };

    fn sum(self, other: Self) -> Self
        ensures { result ≡ sum model self other };

    fn opposite(self) -> Self
        ensures { result ≡ opposite model self };

    fn base_multiple(s: Self::Scalar) -> Self
        ensures { result ≡ base_multiple model s };

    // Stays a method, with `same_scalar`: a bound `Eq` says by a law that `==` decides equality, and each proof that
    // compares would have to cite it.
    fn same(self, other: Self) -> bool
        ensures { Decides result (self ≡ other) };

    fn encode(self) -> Code
        ensures { code_bytes result ≡ model.code self };

    fn decode(bytes: &[u8]) -> Result<Self, GroupFault>
        ensures { result ≡ ok_or (model.element bytes.now) GroupFault.NoElement };

    fn map(bytes: &[u8; 32]) -> Self
        ensures { result ≡ model.map bytes.now };

    // Scalars, and how many bytes the code of one has: written here once, over the reckoning.
    final fn scalar_width() -> usize
        ensures { result ≡ model.scalars.width }
    {
        Self::order().width()
    }

    final fn add(s: Self::Scalar, t: Self::Scalar) -> Self::Scalar
        ensures { result ≡ added model.scalars s t }
    {
        Self::order().sum(s, t)
    }

    final fn subtract(s: Self::Scalar, t: Self::Scalar) -> Self::Scalar
        ensures { result ≡ subtracted model.scalars s t }
    {
        Self::order().difference(s, t)
    }

    final fn multiply(s: Self::Scalar, t: Self::Scalar) -> Self::Scalar
        ensures { result ≡ multiplied model.scalars s t }
    {
        Self::order().product(s, t)
    }

    final fn invert(s: Self::Scalar) -> Self::Scalar
        ensures { result ≡ model.scalars.inverse s }
    {
        Self::order().inverse(s)
    }

    final fn bit(s: Self::Scalar, place: u32) -> bool
        ensures { result ≡ bit_at model.scalars s place }
    {
        Self::order().bit(s, place)
    }

    final fn same_scalar(s: Self::Scalar, t: Self::Scalar) -> bool
        ensures { Decides result (s ≡ t) }
    {
        Self::order().same(s, t)
    }

    final fn encode_scalar(s: Self::Scalar) -> Code
        ensures { code_bytes result ≡ scalar_code model.scalars s }
    {
        Self::order().encode(s)
    }

    final fn decode_scalar(bytes: &[u8]) -> Result<Self::Scalar, GroupFault>
        ensures { result ≡ ok_or (scalar_of model.scalars bytes.now) GroupFault.NoScalar }
    {
        Self::order().decode(bytes)
    }

    final fn reduce(bytes: &[u8; 32]) -> Self::Scalar
        ensures { result ≡ reduced model.scalars bytes.now }
    {
        Self::order().reduce(bytes)
    }

    // A scalar as one that is not zero, and back.
    final fn nonzero(s: Self::Scalar) -> Result<Self::NonZero, GroupFault>
        ensures { result ≡ ok_or (model.scalars.nonzero s) GroupFault.NoScalar }
    {
        Self::order().nonzero(s)
    }

    final fn scalar_of(k: Self::NonZero) -> Self::Scalar
        ensures { result ≡ model.scalars.part k }
    {
        Self::order().part(k)
    }
}

// s times p, by doubling, from the highest bit of s down.
// It is compiled into each caller: where the order is known, so are the places that no scalar has, and they fall
// away. One multiple that all share is a quarter slower.
#[inline(always)]
pub fn multiple<G: Group>(s: G::Scalar, p: G) -> G
    ensures { result ≡ multiple G.model s p }
{
    let mut r = G::null();
    let width = G::scalar_width() as u32;
    for place in (0..8 * width).rev() {
        r = r.sum(r);
        if G::bit(s, place) {
            r = r.sum(p);
        }
    }
    r
}

// Why a weighted sum is refused.
#[derive(Clone, Copy)]
pub enum SumFault {
    // the bytes are not as long as one code for each scalar
    Wire(WireFault),
    // the first item, counted from 1, whose bytes are no code
    Item(usize, GroupFault),
}

// The sum of the elements whose codes stand in a row, each times its scalar.
pub fn weighted_sum<G: Group>(codes: &[u8], scalars: &[G::Scalar]) -> Result<G, SumFault>
    ensures { result ≡ weighted_sum G.model codes.now scalars.now }
{
    let items = codes.chunks_exact(G::element_width());
    if items.len() != scalars.len() || !items.remainder().is_empty() {
        return Err(SumFault::Wire(WireFault::WrongLength));
    }
    let mut total = G::null();
    for (i, (code, s)) in items.zip(scalars).enumerate() {
        let p = G::decode(code).map_err(|fault| SumFault::Item(i + 1, fault))?;
        total = total.sum(multiple(*s, p));
    }
    Ok(total)
}

// The elements of every kind are a group, and its scalars multiply them.
pub fn laws_hold<G: Group>()
    ensures { Lawful G.model }
{}

// What a blind takes away, its inverse gives back.
pub fn unblinding_holds<G: Group>()
    ensures { Unblinds G.model }
{}

// A blinded element hides its input: some blind takes every input to it, and only one.
pub fn one_scalar_holds<G: Group>()
    ensures { OneScalar G.model }
{}

// What a weighted sum over codes is, by its elements.
pub fn weighted_sums_hold<G: Group>()
    ensures { Weighs G.model }
{}
