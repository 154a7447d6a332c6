// That Q is a prime of at least 3: what all reckoning with scalars rests on. A kind of group makes one
// such value, and owes there the test that its order is prime.
ghost use Rattle.std.specs.Prelude.{◌<◌, ◌≤◌};
ghost use Rattle.numbers.specs.Prime.{Prime};

#[derive(Clone, Copy)]
pub struct Order<const Q: u16> {
    ghost low: { 3 ≤ Q },
    ghost high: { Q < 65536 },
    ghost prime: { Prime Q },
}
