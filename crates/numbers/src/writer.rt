// Parts put one behind the other from the front of a buffer that the caller lends.
ghost use Rattle.std.specs.Prelude.{◌≡◌, ℕ, ◌+◌, ◌≤◌, [], length};

// The bytes from the front up to `len` were put, or count as put; those behind them are as they were lent.
#[derive(Drop)]
pub struct Writer<'a> {
    bytes: &'a mut [u8],
    len: usize,
    ghost within: { len ≤ length bytes.now },
}

impl<'a> Writer<'a> {
    ghost use Rattle.numbers.specs.Writing.{put_so_far, room, Put};

    // A writer that has put nothing.
    pub fn new(bytes: &'a mut [u8]) -> Writer<'a>
        ensures lent { result.bytes.ghost_name ≡ bytes.entry.ghost_name }
        ensures bytes { result.bytes.now ≡ bytes.old }
        ensures parts { put_so_far result ≡ [] }
        ensures len { result.len ≡ 0 }
    {
        Writer { bytes, len: 0 }
    }

    // A writer behind the first `len` bytes of a buffer, whoever wrote them: they count as put.
    pub fn behind(bytes: &'a mut [u8], len: usize) -> Writer<'a>
        requires { len ≤ length bytes.old }
        ensures lent { result.bytes.ghost_name ≡ bytes.entry.ghost_name }
        ensures bytes { result.bytes.now ≡ bytes.old }
        ensures len { result.len ≡ len }
    {
        Writer { bytes, len }
    }

    // Puts a part behind those before it.
    pub fn put(&mut self, part: &[u8])
        requires { self.old.len + length part.now ≤ room self.old }
        ensures { Put self.old self.new part.now }
    {
        let end = self.len + part.len();
        self.bytes[self.len..end].copy_from_slice(part);
        self.len = end;
    }

    // What was put.
    pub fn as_slice(&self) -> &[u8]
        ensures { result.now ≡ put_so_far self.now }
    {
        &self.bytes[..self.len]
    }
}
