// SHA-256 (FIPS 180-4): padding, the blocks one after the other, and the digest. The contracts cite the standard's definitions, in its own names, of
// crate `sha256_fips180`. The message is read where it lies: of its bytes only those after its last whole block are copied, into the last one or
// two blocks of the padded message, which are all of it that is built.
#![tactic(auto)]

ghost use Rattle.std.specs.Prelude.{◌≡◌, ◌++◌, ◌+◌, ◌/◌, ◌≤◌, ◌<◌, length, take, drop};
ghost use Rattle.sha256_fips180.specs.Fips180.{SHA-256, bytes_of};
ghost use Rattle.sha256_compression.specs.Code.{working};
ghost use Rattle.sha256_digest.specs.Tail.{tail, last_size, hash_from};

use sha256_compression::{State, compress};

// 2^61 bytes: from this length on the bit length has no room in the padding's field, and the standard defines no digest.
const MESSAGE_LIMIT: usize = 0x2000_0000_0000_0000;

// H⁽⁰⁾ of 5.3.3.
const INITIAL: State = State {
    a: 0x6a09e667,
    b: 0xbb67ae85,
    c: 0x3c6ef372,
    d: 0xa54ff53a,
    e: 0x510e527f,
    f: 0x9b05688c,
    g: 0x1f83d9ab,
    h: 0x5be0cd19,
};

// The hash value after the whole blocks of s, from h on.
fn blocks(h: State, s: &[u8]) -> State
    ensures { working result ≡ hash_from (working h) (length s.now / 64) s.now }
{
    let mut x = h;
    for block in s.chunks_exact(64) {
        x = compress(x, block);
    }
    x
}

// The size of the last blocks, those of the padded message after the whole blocks of n bytes: one block where the length has room in it,
// else two.
fn last_size(n: usize) -> usize
    ensures { (result ≡ last_size n) × (64 ≤ result) × (result ≤ 128) }
{
    if n % 64 < 56 { 64 } else { 128 }
}

// The last blocks, at the front.
fn last_blocks(s: &[u8]) -> [u8; 128]
    ensures { take (last_size (length s.now)) result ≡ tail s.now }
{
    let mut b = [0u8; 128];
    let n = s.len();
    let r = n % 64;
    b[..r].copy_from_slice(&s[n - r..]);
    b[r] = 0x80;
    let end = last_size(n);
    b[end - 8..end].copy_from_slice(&(n % MESSAGE_LIMIT * 8).to_be_bytes());
    b
}

// The eight words in bytes.
fn bytes_of(s: State) -> [u8; 32]
    ensures { result ≡ bytes_of (working s) }
{
    let mut d = [0u8; 32];
    for (i, x) in [s.a, s.b, s.c, s.d, s.e, s.f, s.g, s.h].iter().enumerate() {
        d[4 * i..4 * i + 4].copy_from_slice(&x.to_be_bytes());
    }
    d
}

// The SHA-256 of s. Below MESSAGE_LIMIT bytes this is FIPS 180-4's digest (`sha256-right`, `sha256_fips180/proofs/StandardLaws`); from there on, where
// the standard defines none, the padding's field keeps the bit length modulo 2^64, as the definition says.
pub fn digest(s: &[u8]) -> [u8; 32]
    ensures { result ≡ SHA-256 s.now }
{
    let h = blocks(INITIAL, s);
    let b = last_blocks(s);
    bytes_of(blocks(h, &b[..last_size(s.len())]))
}

// For callers from other languages, which call it by `sha256_digest_c`: writes the SHA-256 of s to the front of `out` and returns 32, or writes
// nothing and returns 0 where `out` is shorter than that.
pub fn silkcliff_sha256(s: &[u8], out: &mut [u8]) -> usize
    ensures written { 32 ≤ length out.old → (result ≡ 32) × (out.new ≡ SHA-256 s.now ++ drop 32 out.old) }
    ensures short { length out.old < 32 → (result ≡ 0) × (out.new ≡ out.old) }
{
    if out.len() < 32 {
        return 0;
    }
    out[..32].copy_from_slice(&digest(s));
    32
}
