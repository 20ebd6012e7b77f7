// Numbers of two bytes, the higher first (big-endian).
#![tactic(auto)]

ghost use Rattle.std.specs.Prelude.{◌≡◌, ◌+◌, ◌≤◌, length};
ghost use Rattle.bytes_pairs.specs.Pairs.{pair_at};

// The number that the two bytes at `at` say.
pub fn pair_at(b: &[u8], at: usize) -> u16
    requires { at + 2 ≤ length b.now }
    ensures { result ≡ pair_at b.now at }
{
    u16::from_be_bytes([b[at], b[at + 1]])
}
