// A scalar that is not zero, as keys, blinds and proof nonces must be.
ghost use Rattle.std.specs.Prelude.{◌<◌};

use crate::modular::Scalar;

#[derive(Clone, Copy, PartialEq, Eq)]
pub struct NonZero<const Q: u16> {
    pub scalar: Scalar<Q>,
    ghost positive: { 0 < scalar.value },
}
