// A batch that was blinded and waits for its reply.
ghost use Rattle.std.specs.Prelude.{◌≡◌, ℕ, ◌≤◌};

// It has no `Drop`, and nobody outside can make one or take one apart: `finish` or `abandon` must end it.
pub struct Pending {
    pub(crate) epoch: u16,
    pub(crate) count: u8,
    // a batch has 1 to 16 items
    ghost some: { 1 ≤ count },
    ghost few: { count ≤ 16 },
}

impl Pending {
    // Gives the batch up, and answers its epoch and how many items it has.
    pub fn abandon(self) -> (u16, u8)
        ensures { result ≡ (self.epoch, self.count) }
    {
        let Pending { epoch, count } = self;
        (epoch, count)
    }
}
