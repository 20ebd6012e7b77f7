// Bytes as 64-bit words, big-endian: the first byte is the highest. So words compare as their bytes do, eight bytes at a time. An id, of 32
// bytes, is four words.
#![tactic(auto)]

ghost use Rattle.std.specs.Prelude.{◌≡◌, ◌*◌, ◌<◌, length, get_or};
ghost use Rattle.bytes_order.specs.Order.{same};
ghost use Rattle.bytes_order.specs.Compare.{order_of};
ghost use Rattle.bytes_words.specs.Words.{bytes_of};

use std::cmp::Ordering;

// Byte i of the bytes of words.
pub fn byte_at(w: &[u64], i: usize) -> u8
    requires { i < 8 * length w.now }
    ensures { result ≡ get_or (bytes_of w.now) i 0 }
{
    w[i / 8].to_be_bytes()[i % 8]
}

// The bytes of an id's words.
pub fn unpack(w: &[u64]) -> [u8; 32]
    requires { length w.now ≡ 4 }
    ensures { result ≡ bytes_of w.now }
{
    let mut id = [0u8; 32];
    for (i, byte) in id.iter_mut().enumerate() {
        *byte = byte_at(w, i);
    }
    id
}

// How the bytes of a stand to those of b, which has as many words: by the first word in which they differ. (Of `a[..]` it is known that each number in it
// fits a word; of `a` alone, passed on, it is not.)
#[tactic(auto, using(crate::proofs::WordsOrderLaws::cmp_is_order_of_bytes))]
pub fn compare(a: &[u64], b: &[u64]) -> Ordering
    requires { length a.now ≡ length b.now }
    ensures { result ≡ order_of (bytes_of a.now) (bytes_of b.now) }
{
    a[..].cmp(&b[..])
}

// Whether the bytes of a are those of b, which has as many words.
#[tactic(auto, using(crate::proofs::WordsOrderLaws::eq_is_same_bytes))]
pub fn same(a: &[u64], b: &[u64]) -> bool
    requires { length a.now ≡ length b.now }
    ensures { result ≡ same (bytes_of a.now) (bytes_of b.now) }
{
    a[..] == b[..]
}
