// The functions, constants and compression of SHA-256 (FIPS 180-4, 4.1.2, 4.2.2 and 6.2.2). The contracts cite the standard's definitions, in its own
// names, of crate `sha256_fips180`.
#![tactic(auto)]

ghost use Rattle.std.specs.Prelude.{◌≡◌, ℕ, ◌+◌, ◌<◌, ◌≤◌, List, length};
ghost use Rattle.sha256_fips180.specs.Fips180.{ROTR, Ch, Maj, Σ₀, Σ₁, σ₀, σ₁, word_at, words, Working, T₁, T₂, step, steps, added, compress};
ghost use Rattle.sha256_compression.specs.Code.{working, Scheduled, Underway, Rotation};

// K₀ .. K₆₃ of 4.2.2.
pub const CONSTANTS: [u32; 64] = [
    0x428a2f98, 0x71374491, 0xb5c0fbcf, 0xe9b5dba5, 0x3956c25b, 0x59f111f1, 0x923f82a4, 0xab1c5ed5,
    0xd807aa98, 0x12835b01, 0x243185be, 0x550c7dc3, 0x72be5d74, 0x80deb1fe, 0x9bdc06a7, 0xc19bf174,
    0xe49b69c1, 0xefbe4786, 0x0fc19dc6, 0x240ca1cc, 0x2de92c6f, 0x4a7484aa, 0x5cb0a9dc, 0x76f988da,
    0x983e5152, 0xa831c66d, 0xb00327c8, 0xbf597fc7, 0xc6e00bf3, 0xd5a79147, 0x06ca6351, 0x14292967,
    0x27b70a85, 0x2e1b2138, 0x4d2c6dfc, 0x53380d13, 0x650a7354, 0x766a0abb, 0x81c2c92e, 0x92722c85,
    0xa2bfe8a1, 0xa81a664b, 0xc24b8b70, 0xc76c51a3, 0xd192e819, 0xd6990624, 0xf40e3585, 0x106aa070,
    0x19a4c116, 0x1e376c08, 0x2748774c, 0x34b0bcb5, 0x391c0cb3, 0x4ed8aa4a, 0x5b9cca4f, 0x682e6ff3,
    0x748f82ee, 0x78a5636f, 0x84c87814, 0x8cc70208, 0x90befffa, 0xa4506ceb, 0xbef9a3f7, 0xc67178f2,
];

// The eight working variables, or the eight words of a hash value.
#[derive(Clone, Copy)]
pub struct State {
    pub a: u32,
    pub b: u32,
    pub c: u32,
    pub d: u32,
    pub e: u32,
    pub f: u32,
    pub g: u32,
    pub h: u32,
}

// x rotated right by n.
fn rotr(n: u32, x: u32) -> u32
    requires { Rotation n }
    ensures { result ≡ ROTR n x }
{
    x.rotate_right(n)
}

// Ch of 4.1.2: each bit of x chooses that of y or of z. It and Maj are in forms of one operation less than the standard's.
fn ch(x: u32, y: u32, z: u32) -> u32
    ensures { result ≡ Ch x y z }
{
    z ^ (x & (y ^ z))
}

// Maj of 4.1.2: the majority of the three bits.
fn maj(x: u32, y: u32, z: u32) -> u32
    ensures { result ≡ Maj x y z }
{
    y ^ ((x ^ y) & (y ^ z))
}

// Σ₀ of 4.1.2: rotations by 2, 2 + 11 and 2 + 11 + 9. Nested, they need fewer copies of x.
fn big_sigma0(x: u32) -> u32
    ensures { result ≡ Σ₀ x }
{
    rotr(2, x ^ rotr(11, x ^ rotr(9, x)))
}

// Σ₁ of 4.1.2: rotations by 6, 6 + 5 and 6 + 5 + 14, nested as well.
fn big_sigma1(x: u32) -> u32
    ensures { result ≡ Σ₁ x }
{
    rotr(6, x ^ rotr(5, x ^ rotr(14, x)))
}

// σ₀ of 4.1.2.
fn small_sigma0(x: u32) -> u32
    ensures { result ≡ σ₀ x }
{
    rotr(7, x) ^ rotr(18, x) ^ (x >> 3)
}

// σ₁ of 4.1.2.
fn small_sigma1(x: u32) -> u32
    ensures { result ≡ σ₁ x }
{
    rotr(17, x) ^ rotr(19, x) ^ (x >> 10)
}

// T₁ of 6.2.2.
fn t1(s: State, k: u32, w: u32) -> u32
    ensures { result ≡ T₁ (working s) k w }
{
    s.h.wrapping_add(big_sigma1(s.e))
        .wrapping_add(ch(s.e, s.f, s.g))
        .wrapping_add(k)
        .wrapping_add(w)
}

// T₂ of 6.2.2.
fn t2(s: State) -> u32
    ensures { result ≡ T₂ (working s) }
{
    big_sigma0(s.a).wrapping_add(maj(s.a, s.b, s.c))
}

// One step of the compression.
fn step(s: State, k: u32, w: u32) -> State
    ensures { working result ≡ step (working s) k w }
{
    let x = t1(s, k, w);
    let y = t2(s);
    State {
        a: x.wrapping_add(y),
        b: s.a,
        c: s.b,
        d: s.c,
        e: s.d.wrapping_add(x),
        f: s.e,
        g: s.f,
        h: s.g,
    }
}

// Step t: from the first t steps to the first t + 1, of any hash value H.
fn step_at(s: State, w: &[u32; 64], t: usize) -> State
    requires { t < 64 }
    ensures { (H : Working) → working s ≡ steps t w.now H → working result ≡ steps (t + 1) w.now H }
{
    step(s, CONSTANTS[t], w[t])
}

// The last 16 steps, of any hash value H: the schedule is whole. The compiler writes eight steps out, where no variable has to move to the next; in one loop of 16 the
// digest is slower by a sixth.
fn last_steps(s: State, w: &[u32; 64]) -> State
    ensures { (H : Working) → working s ≡ steps 48 w.now H → working result ≡ steps 64 w.now H }
{
    let mut v = s;
    for t in (48..64).step_by(8) {
        for i in 0..8 {
            v = step_at(v, w, t + i);
        }
    }
    v
}

// The four bytes at i as a word, the most significant first. By numbers: `from_be_bytes` would copy bytes of the message into an array of their own.
fn word(s: &[u8], i: usize) -> u32
    requires { i + 4 ≤ length s.now }
    ensures { result ≡ word_at s.now i }
{
    u32::from(s[i]) * 0x100_0000
        + u32::from(s[i + 1]) * 0x1_0000
        + u32::from(s[i + 2]) * 0x100
        + u32::from(s[i + 3])
}

// The block's 16 words to the front of the schedule.
fn load(w: &mut [u32; 64], s: &[u8])
    requires { 64 ≤ length s.now }
    ensures { Scheduled (words 16 s.now) 0 w.new }
{
    for t in 0..16 {
        w[t] = word(s, 4 * t);
    }
}

// Word 16 + n of the schedule, from the words before it.
fn extend_at(w: &mut [u32; 64], n: usize)
    requires { n < 48 }
    ensures { (M : List ℕ) → Scheduled M n w.old → Scheduled M (n + 1) w.new }
{
    w[n + 16] = small_sigma1(w[n + 14])
        .wrapping_add(w[n + 9])
        .wrapping_add(small_sigma0(w[n + 1]))
        .wrapping_add(w[n]);
}

// Word 16 + t of the schedule, then step t: of any words M of a block and any hash value H.
fn turn(s: State, w: &mut [u32; 64], t: usize) -> State
    requires { t < 48 }
    ensures { (M : List ℕ) (H : Working) → Underway M H t w.old (working s) → Underway M H (t + 1) w.new (working result) }
{
    extend_at(w, t);
    step(s, CONSTANTS[t], w[t])
}

// The first 48 steps, with which the schedule becomes whole, from its first 16 words on; by eights as the last ones.
fn first_steps(h: State, w: &mut [u32; 64]) -> State
    ensures { (M : List ℕ) → Scheduled M 0 w.old → Underway M (working h) 48 w.new (working result) }
{
    let mut s = h;
    for t in (0..48).step_by(8) {
        for i in 0..8 {
            s = turn(s, w, t + i);
        }
    }
    s
}

// The words of s and h added, each modulo 2^32.
fn added(s: State, h: State) -> State
    ensures { working result ≡ added (working s) (working h) }
{
    State {
        a: s.a.wrapping_add(h.a),
        b: s.b.wrapping_add(h.b),
        c: s.c.wrapping_add(h.c),
        d: s.d.wrapping_add(h.d),
        e: s.e.wrapping_add(h.e),
        f: s.f.wrapping_add(h.f),
        g: s.g.wrapping_add(h.g),
        h: s.h.wrapping_add(h.h),
    }
}

// The hash value after one more block, s.
pub fn compress(h: State, s: &[u8]) -> State
    requires { 64 ≤ length s.now }
    ensures { working result ≡ compress (working h) s.now }
{
    let mut w = [0u32; 64];
    load(&mut w, s);
    let s48 = first_steps(h, &mut w);
    added(last_steps(s48, &w), h)
}
