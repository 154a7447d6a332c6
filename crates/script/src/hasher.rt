// How the names of a script are hashed: by their length and their first letters.
ghost use Rattle.std.specs.Prelude.{◌≡◌};
ghost use Rattle.script.specs.Hashes.{fresh, fed};

use std::hash::Hasher;

// How many writes count: that of a name's length, and one for each of its first 64 letters.
const COUNTED: u8 = 65;

// FNV-1a over the first writes. A name may be as long as its line, and each of its letters is a write of its own: past
// the first ones a write costs next to nothing. Long names of one length that begin alike are told apart by the map,
// which compares them.
#[derive(Clone, Copy, Drop)]
pub struct NameHasher {
    hash: u64,
    left: u8,
}

impl Default for NameHasher {
    ghost is_default = { λ h. h ≡ fresh };

    fn default() -> NameHasher {
        NameHasher {
            hash: 0xcbf2_9ce4_8422_2325,
            left: COUNTED,
        }
    }
}

impl Hasher for NameHasher {
    ghost write = { fed };

    ghost finish = { λ h. h.hash };

    fn finish(&self) -> u64 {
        self.hash
    }

    fn write(&mut self, bytes: &[u8]) {
        if self.left == 0 {
            return;
        }
        self.left -= 1;
        let mut hash = self.hash;
        for b in bytes {
            hash = (hash ^ u64::from(*b)).wrapping_mul(0x0100_0000_01b3);
        }
        self.hash = hash;
    }
}
