// Two copies of the ledger side by side.
use crate::commands::Lent;
use crate::plain::{BUFFER_ROOM, FILL, STORE_ROOM};
use crate::show;
use std::array;
use test_script::{LISTED, bytes_of, lend, of_letter};

// The bytes of the slot that the k-th letter calls; no bytes where there is no such letter.
fn called<'a>(slots: &'a [u8], letters: &[u8], k: usize) -> &'a [u8] {
    match letters.get(k).and_then(|b| of_letter(*b)) {
        Some(s) => bytes_of(slots, s),
        None => &[],
    }
}

// The bytes of the slots that letters call. Those past the last letter are no bytes, which are refused.
fn list<'a>(slots: &'a [u8], letters: &[u8]) -> [&'a [u8]; LISTED] {
    array::from_fn(|k| called(slots, letters, k))
}

// Offers the bytes of two lists of slots to two copies, whose stores hold different bytes at first, and prints how the copies compare.
pub fn compare(slots: &[u8], first: &[u8], second: &[u8]) {
    show::compared(replicas_check::compare(
        &list(slots, first),
        &list(slots, second),
        lend(slots, Lent::Store.slot(), &mut [FILL; STORE_ROOM]),
        lend(slots, Lent::OtherStore.slot(), &mut [0u8; STORE_ROOM]),
        lend(slots, Lent::Buffer.slot(), &mut [FILL; BUFFER_ROOM]),
        lend(slots, Lent::OtherBuffer.slot(), &mut [FILL; BUFFER_ROOM]),
    ));
}
