// The compression function of SHA-256: one block of 64 bytes into a hash value of eight words.
ghost use Rattle.std.specs.Prelude.{◌≡◌, ℕ, ◌+◌, ◌-◌, ◌*◌, ◌/◌, ◌%◌, ◌^◌, ◌<◌, ◌≤◌, length};
ghost use Rattle.digest.specs.Words.{choice, majority, Turns, turned, shifted};
ghost use Rattle.digest.specs.Sha256.{schedule as scheduled, stepped, rounds, working, compressed};

use crate::constants::ROUND;

// The working variables of the rounds.
#[derive(Clone, Copy)]
pub struct Working {
    pub a: u32,
    pub b: u32,
    pub c: u32,
    pub d: u32,
    pub e: u32,
    pub f: u32,
    pub g: u32,
    pub h: u32,
}

// Where x has a bit, that of y, else that of z: three operations for the standard's four.
fn ch(x: u32, y: u32, z: u32) -> u32
    ensures { result ≡ choice x y z }
{
    ((y ^ z) & x) ^ z
}

// The bit that most have. Written so, x ^ y of one round is y ^ z of the next, and is computed once.
fn maj(x: u32, y: u32, z: u32) -> u32
    ensures { result ≡ majority x y z }
{
    ((x ^ y) & (y ^ z)) ^ y
}

// The standard's Σ₀ and Σ₁, each with its three rotations.
fn big_sigma<const A: u32, const B: u32, const C: u32>(x: u32) -> u32
    requires { Turns A × Turns B × Turns C }
    ensures { result ≡ turned A B C x }
{
    x.rotate_right(A) ^ x.rotate_right(B) ^ x.rotate_right(C)
}

// The standard's σ₀ and σ₁, each with its two rotations and its shift.
fn small_sigma<const A: u32, const B: u32, const C: u32>(x: u32) -> u32
    requires { Turns A × Turns B × (C < 32) }
    ensures { result ≡ shifted A B C x }
{
    x.rotate_right(A) ^ x.rotate_right(B) ^ (x >> C)
}

// One round, with its constant and its word of the schedule.
fn round(v: Working, k: u32, w: u32) -> Working
    ensures { result ≡ stepped v k w }
{
    let t1 = v
        .h
        .wrapping_add(big_sigma::<6, 11, 25>(v.e))
        .wrapping_add(ch(v.e, v.f, v.g))
        .wrapping_add(k)
        .wrapping_add(w);
    let t2 = big_sigma::<2, 13, 22>(v.a).wrapping_add(maj(v.a, v.b, v.c));
    Working {
        a: t1.wrapping_add(t2),
        b: v.a,
        c: v.b,
        d: v.c,
        e: v.d.wrapping_add(t1),
        f: v.e,
        g: v.f,
        h: v.g,
    }
}

// The message schedule of a block: its own 16 words, and 48 more, each from those 2, 7, 15 and 16 before it.
fn schedule(block: &[u8; 64]) -> [u32; 64]
    ensures { result ≡ scheduled block.now }
{
    let mut words = [0; 64];
    let (front, _) = block.as_chunks();
    for (t, bytes) in front.iter().enumerate() {
        words[t] = u32::from_be_bytes(*bytes);
    }
    // Stays two loops, with eight words a turn, which the compiler lays out in a row: in one loop it took an
    // eighth longer (measured), and fell behind Mbed TLS, which it is to pass.
    for i in 0..6usize {
        for j in 0..8usize {
            let n = 8 * i + j;
            words[n + 16] = small_sigma::<17, 19, 10>(words[n + 14])
                .wrapping_add(words[n + 9])
                .wrapping_add(small_sigma::<7, 18, 3>(words[n + 1]))
                .wrapping_add(words[n]);
        }
    }
    words
}

// The 64 rounds over a schedule.
fn all_rounds(words: &[u32; 64], start: Working) -> Working
    ensures { result ≡ rounds words.now 64 start }
{
    let mut v = start;
    // Stays in turns of eight rounds, after which each variable is back in its own place: one `zip` over all 64
    // took a quarter longer (measured), and fell behind Mbed TLS, which it is to pass.
    let (constants, _) = ROUND.as_chunks::<8>();
    for (i, ks) in constants.iter().enumerate() {
        for (j, k) in ks.iter().enumerate() {
            v = round(v, *k, words[8 * i + j]);
        }
    }
    v
}

// The hash value after one block more.
pub fn compress(state: &[u32; 8], block: &[u8; 64]) -> [u32; 8]
    ensures { result ≡ compressed state.now block.now }
{
    let [a, b, c, d, e, f, g, h] = *state;
    let start = Working {
        a,
        b,
        c,
        d,
        e,
        f,
        g,
        h,
    };
    let v = all_rounds(&schedule(block), start);
    // Stays eight sums in a row, as the standard has them: `array::from_fn` would want the variables as a list first.
    [
        a.wrapping_add(v.a),
        b.wrapping_add(v.b),
        c.wrapping_add(v.c),
        d.wrapping_add(v.d),
        e.wrapping_add(v.e),
        f.wrapping_add(v.f),
        g.wrapping_add(v.g),
        h.wrapping_add(v.h),
    ]
}
