// Bytes put together into 64-bit words, big-endian: the first byte is the highest. An id, of 32 bytes, is four words.
#![tactic(auto)]

ghost use Rattle.std.specs.Prelude.{◌≡◌, ◌+◌, ◌≤◌, length};
ghost use Rattle.bytes_words.specs.Words.{word_from, Packed};

// The eight bytes of b from `at` on, as a word. (One load of eight bytes and a byte swap; with the bytes copied to an array first, they are stored and
// loaded again.)
pub fn word(b: &[u8], at: usize) -> u64
    requires { at + 8 ≤ length b.now }
    ensures { result ≡ word_from b.now at }
{
    u64::from_be_bytes([
        b[at],
        b[at + 1],
        b[at + 2],
        b[at + 3],
        b[at + 4],
        b[at + 5],
        b[at + 6],
        b[at + 7],
    ])
}

// The words of an id.
pub fn pack(id: &[u8]) -> [u64; 4]
    requires { length id.now ≡ 32 }
    ensures { Packed 4 id.now result }
{
    [word(id, 0), word(id, 8), word(id, 16), word(id, 24)]
}
