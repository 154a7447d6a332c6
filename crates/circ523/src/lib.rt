// circ523: points of the circle x² + y² = 1 modulo 523, a group of 131 elements.
//
// A kind of group: see `group`. An element is a pair of the crate `circle` whose 131-fold sum is null,
// and its logarithm is the number of times that G = (82, 434) goes into it. The equation alone does not
// make an element: the circle has 524 points, and decoding refuses the 393 that are not in the group.
#![tactic(auto)]

ghost use Rattle.std.specs.Prelude.{◌≡◌};
ghost use Rattle.circ523.specs.Kind.{points};
ghost use Rattle.circ523.specs.Worked.{CircleGroup, Worked};

use circle::{Pair, mapped};
use faults::GroupFault;
use group::Group;
use numbers::{Code, leading_word};
use scalar::{NonZero, Order, Scalar};

pub mod point;

pub use point::Point;

impl Group for Point {
    type Scalar = Scalar<131>;

    type NonZero = NonZero<131>;

    type Order = Order<131>;

    ghost model = { points };

    fn kind() -> u16 {
        0xE102
    }

    fn name() -> &'static [u8] {
        b"circ523"
    }

    // The order, 131, is prime.
    fn order() -> Order<131> {
        Order {}
    }

    fn element_width() -> usize {
        4
    }

    fn null() -> Point {
        Point { pair: Pair::NULL }
    }

    fn generator() -> Point {
        Point {
            pair: Pair::GENERATOR,
        }
    }

    fn sum(self, other: Point) -> Point {
        Point {
            pair: self.pair.sum(other.pair),
        }
    }

    fn opposite(self) -> Point {
        Point {
            pair: self.pair.opposite(),
        }
    }

    fn base_multiple(s: Scalar<131>) -> Point {
        Point {
            pair: Pair::GENERATOR.times(s.value),
        }
    }

    fn same(self, other: Point) -> bool {
        self == other
    }

    fn encode(self) -> Code {
        Code::four(self.pair.x, self.pair.y)
    }

    fn decode(bytes: &[u8]) -> Result<Point, GroupFault> {
        let [x_high, x_low, y_high, y_low] = *bytes else {
            return Err(GroupFault::NoElement);
        };
        let x = u16::from_be_bytes([x_high, x_low]);
        let y = u16::from_be_bytes([y_high, y_low]);
        let pair = Pair { x, y };
        if pair.is_member() {
            Ok(Point { pair })
        } else {
            Err(GroupFault::NoElement)
        }
    }

    fn map(bytes: &[u8; 32]) -> Point {
        Point {
            pair: mapped(leading_word(bytes)),
        }
    }
}

// The group that the model speaks of by logarithms is the circle's: its elements add as points do.
pub fn circle_group_holds()
    ensures { CircleGroup }
{}

// The worked values of the table in specs/ hold.
pub fn worked_values_hold()
    ensures { Worked }
{}
