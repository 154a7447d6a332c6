// A scalar of the order Q: a number below Q.
ghost use Rattle.std.specs.Prelude.{◌<◌};

#[derive(Clone, Copy, PartialEq, Eq)]
pub struct Scalar<const Q: u16> {
    pub value: u16,
    ghost below: { value < Q },
}
