// Copying bytes.
#![tactic(auto)]

ghost use Rattle.std.specs.Prelude.{◌≡◌, ◌++◌, ◌≤◌, length, drop};

// Copies s to the front of d; the bytes after it keep their values.
pub fn copy(d: &mut [u8], s: &[u8])
    requires { length s.now ≤ length d.old }
    ensures { d.new ≡ s.now ++ drop (length s.now) d.old }
{
    d[..s.len()].copy_from_slice(s);
}
