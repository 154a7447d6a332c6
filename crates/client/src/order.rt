// What a shop keeps of a batch from `blind` to `finish`.

// The code of the public key; and of each item its seed, 64 bytes, and the code of its blind.
#[derive(Clone, Copy)]
pub struct Order<'a> {
    pub pk: &'a [u8],
    pub seeds: &'a [u8],
    pub blinds: &'a [u8],
}
