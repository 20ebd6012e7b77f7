// The bytes of a bundle: items one after the other, each a two-byte big-endian length, then its bytes; at most 64.
#![tactic(auto)]

ghost use Rattle.std.specs.Prelude.{◌≡◌, ◌+◌, ◌≤◌, length, drop};
ghost use Rattle.bundle_format.specs.Bundle.{length_bytes, first_length, first_item, first_whole, items_of};
ghost use Rattle.bundle_format.specs.Counted.{length_of};

use bytes_pairs::pair_at;
use update_format::slice_of;

// How many items a bundle has at most.
pub const MOST_ITEMS: usize = 64;

// How many bytes a length has.
pub const LENGTH_BYTES: usize = 2;

// The length of the item that begins at `at`.
fn length_at(bundle: &[u8], at: usize) -> usize
    requires { at + length_bytes ≤ length bundle.now }
    ensures { result ≡ first_length (drop at bundle.now) }
{
    usize::from(pair_at(bundle, at))
}

// Whether the item that begins at `at` is whole: its length is there, and so many bytes after it.
fn whole(bundle: &[u8], at: usize) -> bool
    requires { at ≤ length bundle.now }
    ensures { result ≡ first_whole (drop at bundle.now) }
{
    let left = bundle.len() - at;
    LENGTH_BYTES <= left && length_at(bundle, at) <= left - LENGTH_BYTES
}

// The bytes of the item that begins at `at`.
pub fn item(bundle: &[u8], at: usize) -> &[u8]
    requires { at + length_bytes ≤ length bundle.now }
    ensures { result.now ≡ first_item (drop at bundle.now) }
{
    slice_of(bundle, at + LENGTH_BYTES, length_at(bundle, at))
}

// How many items the bytes have, if they are a bundle.
pub fn count(bundle: &[u8]) -> Option<usize>
    ensures { result ≡ length_of (items_of bundle.now) }
{
    let mut at = 0;
    for n in 0..=MOST_ITEMS {
        if at == bundle.len() {
            return Some(n);
        }
        if !whole(bundle, at) {
            return None;
        }
        at += LENGTH_BYTES + length_at(bundle, at);
    }
    None
}
