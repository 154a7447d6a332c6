// Scalars: the numbers below a prime order Q, reckoned modulo Q, once for every order.
//
// Every kind of group takes its scalars from here. `Scalar<Q>` is a number below Q, `NonZero<Q>` one that
// is not 0 (a key, a blind, a proof nonce), and `Order<Q>` the reckoning: whoever holds a value of it has
// shown that Q is a prime of at least 3. What a kind of group must know of its scalars is the record
// `Scalars` in specs/, and `modulo` there shows that these are such.
#![tactic(auto)]

ghost use Rattle.std.specs.Prelude.{◌≡◌, ℕ, ◌+◌, ◌-◌, ◌*◌, ◌/◌, ◌%◌, ◌^◌, ◌<◌, ◌≤◌, Decides};
ghost use Rattle.std.specs.Option.{ok_or};
ghost use Rattle.faults.specs.declared.GroupFault.{GroupFault};
ghost use Rattle.numbers.specs.Bytes.{code_bytes};
ghost use Rattle.scalar.specs.Scalars.{Scalars, added, subtracted, multiplied, bit_at, scalar_code, scalar_of, reduced};
ghost use Rattle.scalar.specs.Modulo.{modulo};
ghost use Rattle.scalar.specs.Theorems.{Reckons};

use faults::GroupFault;
use numbers::{Code, leading_word};

pub mod modular;
pub mod order;
pub mod positive;

pub use modular::Scalar;
pub use order::Order;
pub use positive::NonZero;

// What reckons with scalars. A kind of group names the one that it takes its scalars from, and never says
// again what they are.
pub trait Reckoner: Copy {
    // The scalars, and those that are known not to be zero.
    type Scalar: Copy;

    type NonZero: Copy;

    // What the scalars are, with the laws that they keep.
    ghost scalars: { Self → Scalars Self.Scalar Self.NonZero };

    // How many bytes the code of a scalar has.
    fn width(self) -> usize
        ensures { result ≡ (scalars self).width };

    fn sum(self, s: Self::Scalar, t: Self::Scalar) -> Self::Scalar
        ensures { result ≡ added (scalars self) s t };

    fn difference(self, s: Self::Scalar, t: Self::Scalar) -> Self::Scalar
        ensures { result ≡ subtracted (scalars self) s t };

    fn product(self, s: Self::Scalar, t: Self::Scalar) -> Self::Scalar
        ensures { result ≡ multiplied (scalars self) s t };

    // What times s is one; zero for zero.
    fn inverse(self, s: Self::Scalar) -> Self::Scalar
        ensures { result ≡ (scalars self).inverse s };

    // The bit at a place, counted from the lowest; past the highest there is none.
    fn bit(self, s: Self::Scalar, place: u32) -> bool
        ensures { result ≡ bit_at (scalars self) s place };

    // The number, big-endian.
    fn encode(self, s: Self::Scalar) -> Code
        ensures { code_bytes result ≡ scalar_code (scalars self) s };

    // The scalar of a code; all other bytes are refused.
    fn decode(self, bytes: &[u8]) -> Result<Self::Scalar, GroupFault>
        ensures { result ≡ ok_or (scalar_of (scalars self) bytes.now) GroupFault.NoScalar };

    // The number in the first 8 bytes, modulo the order.
    fn reduce(self, bytes: &[u8; 32]) -> Self::Scalar
        ensures { result ≡ reduced (scalars self) bytes.now };

    // A scalar as one that is not zero; zero is refused.
    fn nonzero(self, s: Self::Scalar) -> Result<Self::NonZero, GroupFault>
        ensures { result ≡ ok_or ((scalars self).nonzero s) GroupFault.NoScalar };

    // A nonzero scalar as a scalar.
    fn part(self, k: Self::NonZero) -> Self::Scalar
        ensures { result ≡ (scalars self).part k };

    fn same(self, s: Self::Scalar, t: Self::Scalar) -> bool
        ensures { Decides result (s ≡ t) };
}

impl<const Q: u16> Order<Q> {
    // The scalar of a number.
    fn scalar(self, n: u32) -> Scalar<Q>
        ensures { result ≡ (modulo self.entry).scalar n }
    {
        Scalar {
            value: (n % Q as u32) as u16,
        }
    }
}

impl<const Q: u16> Reckoner for Order<Q> {
    type Scalar = Scalar<Q>;

    type NonZero = NonZero<Q>;

    ghost scalars = { modulo };

    fn width(self) -> usize {
        if Q <= 256 { 1 } else { 2 }
    }

    fn sum(self, s: Scalar<Q>, t: Scalar<Q>) -> Scalar<Q> {
        self.scalar(s.value as u32 + t.value as u32)
    }

    fn difference(self, s: Scalar<Q>, t: Scalar<Q>) -> Scalar<Q> {
        self.scalar(s.value as u32 + (Q - t.value) as u32)
    }

    fn product(self, s: Scalar<Q>, t: Scalar<Q>) -> Scalar<Q> {
        self.scalar(s.value as u32 * t.value as u32)
    }

    // With Q = d a + e each turn goes from a multiple a of s to the smaller multiple e = -d a, which is
    // not 0 since Q is prime.
    fn inverse(self, s: Scalar<Q>) -> Scalar<Q> {
        if s.value == 0 {
            return s;
        }
        let mut a = s.value;
        let mut m: u16 = 1;
        while a > 1 {
            m = (m as u32 * (Q - Q / a) as u32 % Q as u32) as u16;
            a = Q % a;
        }
        Scalar { value: m }
    }

    fn bit(self, s: Scalar<Q>, place: u32) -> bool {
        place < 16 && (s.value >> place) % 2 == 1
    }

    fn encode(self, s: Scalar<Q>) -> Code {
        if Q <= 256 {
            Code::one(s.value as u8)
        } else {
            Code::two(s.value)
        }
    }

    fn decode(self, bytes: &[u8]) -> Result<Scalar<Q>, GroupFault> {
        let value = match *bytes {
            [low] if Q <= 256 => u16::from(low),
            [high, low] if Q > 256 => u16::from_be_bytes([high, low]),
            _ => return Err(GroupFault::NoScalar),
        };
        if value < Q {
            Ok(Scalar { value })
        } else {
            Err(GroupFault::NoScalar)
        }
    }

    fn reduce(self, bytes: &[u8; 32]) -> Scalar<Q> {
        Scalar {
            value: (leading_word(bytes) % Q as u64) as u16,
        }
    }

    fn nonzero(self, s: Scalar<Q>) -> Result<NonZero<Q>, GroupFault> {
        if s.value > 0 {
            Ok(NonZero { scalar: s })
        } else {
            Err(GroupFault::NoScalar)
        }
    }

    fn part(self, k: NonZero<Q>) -> Scalar<Q> {
        k.scalar
    }

    fn same(self, s: Scalar<Q>, t: Scalar<Q>) -> bool {
        s == t
    }
}

// The scalars of every order are a field, and each has one code.
pub fn reckoning_holds<const Q: u16>(order: Order<Q>)
    ensures { Reckons (modulo order.entry) }
{}
