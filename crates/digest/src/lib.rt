// SHA-256 of FIPS 180-4, over 0 to 4,096 whole bytes.
//
//   input --whole blocks--> compress --hash value--> last_blocks (padding) --> 32 bytes
//
// Everything above that hashes calls `digest`: key ids, hashing to scalars and to elements, authenticators.
// It takes no memory but its stack and copies of the input no more than the bytes after its last whole
// block. The hash value passes from block to block, and `compress` takes one block into it.
#![tactic(auto)]

ghost use Rattle.std.specs.Prelude.{◌≡◌, ℕ, ◌+◌, ◌-◌, ◌*◌, ◌/◌, ◌%◌, ◌^◌, ◌<◌, ◌≤◌, ◌∷◌, ◌++◌, length, take, replicate};
ghost use Rattle.std.specs.List.{flat_map, fold};
ghost use Rattle.digest.specs.Words.{word_bytes};
ghost use Rattle.digest.specs.Constants.{ConstantsAreRootsOfPrimes};
ghost use Rattle.digest.specs.Padding.{zeros_after, padding, PaddingIsTheStandards};
ghost use Rattle.digest.specs.Sha256.{compressed, closed, digested};

use compress::compress;
use constants::INITIAL;
use faults::WireFault;

mod compress;
mod constants;

// The longest input: what fits the part's largest message with room to spare.
pub const LONGEST: usize = 4096;

// The bytes of a block.
const BLOCK: usize = 64;

// The hash value after more blocks.
fn after_blocks(state: &[u32; 8], blocks: &[[u8; BLOCK]]) -> [u32; 8]
    ensures { result ≡ fold compressed state.now blocks.now }
{
    let mut now = *state;
    for block in blocks {
        now = compress(&now, block);
    }
    now
}

// Writes the end of the padded message over zeros: the bytes after the last whole block, the bit 1, zeros,
// and the number of the message's bits.
fn write_tail(tail: &mut [u8], rest: &[u8], total: usize)
    requires blank { tail.old ≡ replicate (length tail.old) 0 }
    requires room { length tail.old ≡ length rest.now + (zeros_after total + 9) }
    requires few { total ≤ 4096 }
    ensures { tail.new ≡ rest.now ++ padding total }
{
    let end = tail.len();
    let len = rest.len();
    tail[0..len].copy_from_slice(rest);
    tail[len] = 0x80;
    let bits = 8 * total as u64;
    tail[end - 8..end].copy_from_slice(&bits.to_be_bytes());
}

// The hash value after the last one or two blocks: the bytes after the last whole block, and the padding
// of a message of `total` bytes.
fn last_blocks(state: &[u32; 8], rest: &[u8], total: usize) -> [u32; 8]
    requires rest { length rest.now ≡ total % 64 }
    requires few { total ≤ 4096 }
    ensures { result ≡ closed state.now rest.now total }
{
    // the bit 1 and the length take nine bytes
    let end = if rest.len() + 9 <= BLOCK {
        BLOCK
    } else {
        2 * BLOCK
    };
    let mut buffer = [0; 2 * BLOCK];
    let tail = &mut buffer[..end];
    write_tail(tail, rest, total);
    let (blocks, _) = tail.as_chunks();
    after_blocks(state, blocks)
}

// The hash value as bytes.
fn bytes_of(state: &[u32; 8]) -> [u8; 32]
    ensures { result ≡ flat_map word_bytes state.now }
{
    let bytes = state.map(u32::to_be_bytes);
    *bytes.as_flattened().as_array().unwrap()
}

// The digest of the input; an input above `LONGEST` is refused as a wrong length.
pub fn digest(input: &[u8]) -> Result<[u8; 32], WireFault>
    ensures { result ≡ digested input.now }
{
    if input.len() > LONGEST {
        return Err(WireFault::WrongLength);
    }
    let (blocks, rest) = input.as_chunks();
    let state = after_blocks(&INITIAL, blocks);
    let state = last_blocks(&state, rest, input.len());
    Ok(bytes_of(&state))
}

// The standard's words about its constants and its padding, as theorems about the definitions that the
// calls above cite: the constants are the fractions of roots of the first primes, and the padding is the
// shortest that fills the last block.
pub fn constants_are_roots_of_primes()
    ensures { ConstantsAreRootsOfPrimes }
{}

pub fn padding_is_the_standards()
    ensures { PaddingIsTheStandards }
{}
