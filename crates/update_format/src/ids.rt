// Parts of the bytes, and the ids of a run.
ghost use Rattle.std.specs.Prelude.{◌≡◌, ◌+◌, ◌*◌};
ghost use Rattle.update_format.specs.Update.{id_length};
ghost use Rattle.update_format.specs.Decode.{slice, ids_at, first_predecessor};
ghost use Rattle.bytes_order.specs.Order.{before, ascending};

use crate::numbers::{FIRST_PREDECESSOR, ID_LENGTH};

// The len bytes of s from byte at on, as far as there are bytes.
pub fn slice_of(s: &[u8], at: usize, len: usize) -> &[u8]
    ensures { result.now ≡ slice s.now at len }
{
    let rest = s.get(at..).unwrap_or(&[]);
    rest.get(..len).unwrap_or(rest)
}

// The k-th id of a run that begins at byte at; as far as there are bytes.
pub fn named(s: &[u8], at: usize, k: usize) -> &[u8]
    ensures { result.now ≡ slice s.now (at + id_length * k) id_length }
{
    slice_of(s, at.saturating_add(ID_LENGTH.saturating_mul(k)), ID_LENGTH)
}

// The k-th predecessor.
pub fn predecessor(s: &[u8], k: usize) -> &[u8]
    ensures { result.now ≡ slice s.now (first_predecessor + id_length * k) id_length }
{
    named(s, FIRST_PREDECESSOR, k)
}

// Whether the id at place k of a run comes before the id at place next.
#[tactic(auto, using(crate::proofs::Ascent::lt_is_before))]
fn rises(s: &[u8], at: usize, k: usize, next: usize) -> bool
    ensures { result ≡ before (slice s.now (at + id_length * k) id_length) (slice s.now (at + id_length * next) id_length) }
{
    bytes_order::compare(named(s, at, k), named(s, at, next)).is_lt()
}

// Whether the count ids of a run are strictly ascending.
pub fn ascends(s: &[u8], at: usize, count: usize) -> bool
    ensures { result ≡ ascending (ids_at s.now at count) }
{
    (1..count).all(|k| rises(s, at, k - 1, k))
}
