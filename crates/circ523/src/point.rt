// An element of circ523: a point of the circle modulo 523 whose 131-fold sum is null.
ghost use Rattle.circle.specs.Circle.{Member};

use circle::Pair;

#[derive(Clone, Copy, PartialEq, Eq)]
pub struct Point {
    pub pair: Pair,
    ghost member: { Member pair },
}
