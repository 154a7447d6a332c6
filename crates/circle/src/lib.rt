// The circle x² + y² = 1 over the numbers modulo 523.
//
// Its points are the pairs (x, y) that meet the equation; they add as angles do, and of the 524 points
// 131 are the group circ523: those whose 131-fold sum is null. This crate has the bare reckonings on
// pairs, on which the kind of group in `circ523` stands, and in specs/Sums and proofs/ the mathematics: the sum is
// associative and keeps to the circle, four times each point of the circle is a multiple of G, and so
// each member is one of the 131 multiples of G, which are its logarithms.
#![tactic(auto)]

ghost use Rattle.std.specs.Prelude.{◌≡◌, ◌+◌, ◌*◌, ◌%◌, ◌<◌, Decides};
ghost use Rattle.scalar.specs.Inverse.{inverse_number};
ghost use Rattle.circle.specs.Circle.{plus, null, times, opposite, OnCircle, Member, slope_point, mapped_pair};
ghost use Rattle.circle.specs.Laws.{CircleLaws};
ghost use Rattle.circle.specs.Sums.{sums};

use numbers::repeated::{Join, repeated};
use scalar::{Order, Reckoner, Scalar};

// The modulus, a prime, and the number that stands for -1: with it no difference is ever below zero.
const P: u64 = 523;

const MINUS_ONE: u64 = P - 1;

// Two numbers modulo 523. A pair need not lie on the circle.
// Stays numbers of 16 bits and no scalars of `Order<523>`: decoding makes a pair of whatever it reads, and
// `is_member` refuses what is not below 523, which a scalar cannot hold.
#[derive(Clone, Copy, PartialEq, Eq, Debug)]
pub struct Pair {
    pub x: u16,
    pub y: u16,
}

impl Pair {
    pub const NULL: Pair = Pair { x: 1, y: 0 };

    pub const GENERATOR: Pair = Pair { x: 82, y: 434 };

    // (x1x2 - y1y2, x1y2 + x2y1). Products of numbers of 16 bits, and sums of two of them, fit 64 bits.
    pub fn sum(self, other: Pair) -> Pair
        ensures { result ≡ plus self other }
    {
        let (x1, y1) = (u64::from(self.x), u64::from(self.y));
        let (x2, y2) = (u64::from(other.x), u64::from(other.y));
        Pair {
            x: ((x1 * x2 + MINUS_ONE * (y1 * y2)) % P) as u16,
            y: ((x1 * y2 + x2 * y1) % P) as u16,
        }
    }

    // The opposite: the same x, and -y.
    pub fn opposite(self) -> Pair
        ensures { result ≡ opposite self }
    {
        Pair {
            x: self.x,
            y: (MINUS_ONE * u64::from(self.y) % P) as u16,
        }
    }

    // The n-fold sum.
    pub fn times(self, n: u16) -> Pair
        ensures { result ≡ times n self }
    {
        repeated(self, n)
    }

    // Whether x² + y² is 1.
    pub fn on_circle(self) -> bool
        ensures { Decides result (OnCircle self) }
    {
        let (x, y) = (u64::from(self.x), u64::from(self.y));
        (x * x + y * y) % P == 1
    }

    // Whether the pair is an element. Being on the circle is not enough: of its 524 points, 131 are.
    pub fn is_member(self) -> bool
        ensures { Decides result (Member self) }
    {
        self.x < 523 && self.y < 523 && self.on_circle() && self.times(131) == Pair::NULL
    }
}

impl Join for Pair {
    ghost nothing = { null };

    ghost joined = { plus };

    fn null() -> Pair {
        Pair::NULL
    }

    fn join(self, other: Pair) -> Pair {
        self.sum(other)
    }

    ghost laws = { sums };
}

// The numbers modulo the prime 523.
fn plane() -> Order<523> {
    Order {}
}

// The inverse of a number modulo 523.
fn inverse(n: u64) -> u16
    ensures { result ≡ inverse_number 523 (n % 523) }
{
    let s = Scalar {
        value: (n % P) as u16,
    };
    plane().inverse(s).value
}

// The point ((1 - t²)u, 2tu).
fn slope(t: u16, u: u16) -> Pair
    ensures { result ≡ slope_point t u }
{
    let (t, u) = (u64::from(t), u64::from(u));
    Pair {
        x: ((1 + MINUS_ONE * (t * t)) % P * u % P) as u16,
        y: (2 * t * u % P) as u16,
    }
}

// The pair that a word maps to: four times a point of the circle.
pub fn mapped(word: u64) -> Pair
    ensures { result ≡ mapped_pair word }
{
    let t = word % P;
    slope(t as u16, inverse(1 + t * t)).times(4)
}

// What the definitions above come to, in the words of the subject.
pub fn laws_hold()
    ensures { CircleLaws }
{}
