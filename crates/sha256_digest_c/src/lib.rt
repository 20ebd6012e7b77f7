// For callers from other languages: the SHA-256 of a message, as the one function that the static library exports.
#![tactic(auto)]

ghost use Rattle.std.specs.Prelude.{◌≡◌, ◌≤◌, ◌<◌, ◌++◌, drop, length};
ghost use Rattle.sha256_fips180.specs.Fips180.{SHA-256};

// Writes the SHA-256 of s to the front of `out` and returns 32, or writes nothing and returns 0 where `out` is shorter than that.
#[unsafe(no_mangle)]
pub extern "C" fn silkcliff_sha256(s: &[u8], out: &mut [u8]) -> usize
    ensures written { 32 ≤ length out.old → (result ≡ 32) × (out.new ≡ SHA-256 s.now ++ drop 32 out.old) }
    ensures short { length out.old < 32 → (result ≡ 0) × (out.new ≡ out.old) }
{
    sha256_digest::silkcliff_sha256(s, out)
}
