// An element of res2039: a number below 2039 whose power 1019 is one modulo 2039.
ghost use Rattle.numbers.specs.Cycle.{Member};

#[derive(Clone, Copy, PartialEq, Eq)]
pub struct Residue {
    pub value: u16,
    ghost member: { Member 2039 1019 value },
}
