// Numbers and their bytes, below every kind of group.
//
// What scalars and elements share: the code, at most 8 bytes with the high byte first; the word, the number
// in the first 8 of 32 bytes, that maps and reductions begin with; and what is joined with itself so many
// times, a multiple or a power. And the writer, by which hash inputs and messages are put together. The lemmas
// on remainders, powers and primes that every kind of group needs stand in `proofs/`.
#![tactic(auto)]

ghost use Rattle.std.specs.Prelude.{◌≡◌, ℕ, ◌+◌, ◌*◌, ◌/◌, ◌%◌, ◌≤◌, List, [], ◌∷◌, length};
ghost use Rattle.numbers.specs.Bytes.{word, code_bytes};

pub mod code;
pub mod repeated;
pub mod writer;

pub use code::Code;

impl Code {
    // The code that has these bytes.
    fn front<const N: usize>(front: [u8; N]) -> Code
        requires { N ≤ 8 }
        ensures { code_bytes result ≡ front.entry }
    {
        let mut bytes = [0; 8];
        bytes[..N].copy_from_slice(&front);
        Code { bytes, len: N }
    }

    // A code of one byte.
    pub fn one(byte: u8) -> Code
        ensures { code_bytes result ≡ byte ∷ [] }
    {
        Code::front([byte])
    }

    // A number in two bytes.
    pub fn two(number: u16) -> Code
        ensures { code_bytes result ≡ number / 256 ∷ number % 256 ∷ [] }
    {
        Code::front(number.to_be_bytes())
    }

    // Two numbers in two bytes each.
    pub fn four(first: u16, second: u16) -> Code
        ensures { code_bytes result ≡ first / 256 ∷ first % 256 ∷ second / 256 ∷ second % 256 ∷ [] }
    {
        let [a, b] = first.to_be_bytes();
        let [c, d] = second.to_be_bytes();
        Code::front([a, b, c, d])
    }

    pub fn as_slice(&self) -> &[u8]
        ensures { result.now ≡ code_bytes self.now }
    {
        &self.bytes[..self.len]
    }
}

// The number in the first 8 of 32 bytes.
pub fn leading_word(bytes: &[u8; 32]) -> u64
    ensures { result ≡ word bytes.now }
{
    u64::from_be_bytes(*bytes.first_chunk().unwrap())
}
