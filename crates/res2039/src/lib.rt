// res2039: the numbers modulo 2039 whose power 1019 is one, a group of 1,019 elements under the product.
//
// A kind of group: see `group`. The sum of two elements is their product modulo 2039, the null is 1 and
// the generator is 4. A base multiple is read from a table of the powers of 4; that each entry is four
// times the one before is one computed test over the table.
#![tactic(auto)]

ghost use Rattle.std.specs.Prelude.{◌≡◌, ℕ, ◌+◌, ◌-◌, ◌*◌, ◌/◌, ◌%◌, ◌^◌, ◌<◌, ◌≤◌, List, [], ◌∷◌};
ghost use Rattle.res2039.specs.Factors.{one, times, products};
ghost use Rattle.res2039.specs.Kind.{residues};
ghost use Rattle.res2039.specs.Worked.{Worked};

use faults::GroupFault;
use group::Group;
use numbers::repeated::{Join, repeated};
use numbers::{Code, leading_word};
use scalar::{NonZero, Order, Scalar};

mod powers;
pub mod residue;

use powers::powers_of_four;
pub use residue::Residue;

// The power k of 4.
fn power_of_four(k: u16) -> u16
    requires { k < 1019 }
    ensures { result ≡ 4 ^ k % 2039 }
{
    powers_of_four()[k as usize]
}

// a times b.
fn product(a: u16, b: u16) -> u16
    ensures { result ≡ a * b % 2039 }
{
    (u32::from(a) * u32::from(b) % 2039) as u16
}

// A number that is multiplied modulo 2039.
#[derive(Clone, Copy)]
struct Factor(u16);

impl Join for Factor {
    ghost nothing = { one };

    ghost joined = { times };

    fn null() -> Factor {
        Factor(1)
    }

    fn join(self, other: Factor) -> Factor {
        Factor(product(self.0, other.0))
    }

    ghost laws = { products };
}

// a to the power e.
fn raised(a: u16, e: u16) -> u16
    ensures { result ≡ a ^ e % 2039 }
{
    repeated(Factor(a), e).0
}

impl Group for Residue {
    type Scalar = Scalar<1019>;

    type NonZero = NonZero<1019>;

    type Order = Order<1019>;

    ghost model = { residues };

    fn kind() -> u16 {
        0xE101
    }

    fn name() -> &'static [u8] {
        b"res2039"
    }

    // The order, 1019, is prime.
    fn order() -> Order<1019> {
        Order {}
    }

    fn element_width() -> usize {
        2
    }

    fn null() -> Residue {
        Residue { value: 1 }
    }

    fn generator() -> Residue {
        Residue { value: 4 }
    }

    fn sum(self, other: Residue) -> Residue {
        Residue {
            value: product(self.value, other.value),
        }
    }

    fn opposite(self) -> Residue {
        Residue {
            value: raised(self.value, 1018),
        }
    }

    fn base_multiple(s: Scalar<1019>) -> Residue {
        Residue {
            value: power_of_four(s.value),
        }
    }

    fn same(self, other: Residue) -> bool {
        self == other
    }

    fn encode(self) -> Code {
        Code::two(self.value)
    }

    fn decode(bytes: &[u8]) -> Result<Residue, GroupFault> {
        let [high, low] = *bytes else {
            return Err(GroupFault::NoElement);
        };
        let value = u16::from_be_bytes([high, low]);
        if value < 2039 && raised(value, 1019) == 1 {
            Ok(Residue { value })
        } else {
            Err(GroupFault::NoElement)
        }
    }

    fn map(bytes: &[u8; 32]) -> Residue {
        let w = 1 + (leading_word(bytes) % 2038) as u32;
        Residue {
            value: (w * w % 2039) as u16,
        }
    }
}

// The worked values of this kind hold: multiples, codes, maps, and two blinded items.
pub fn worked_values_hold()
    ensures { Worked }
{}
