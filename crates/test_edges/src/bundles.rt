// Bundles of updates.
use crate::show;
use ledger::Ledger;
use test_script::{bytes_of, is_space, put, slot};
use update_format::slice_of;

// What a bundle is laid out in: an item of 65,535 bytes, and some after it.
pub const BUNDLE_ROOM: usize = 66000;

// Lays out what each slot that a line names adds, and gives how many bytes that is.
pub fn lay_out<F: Fn(&[u8], usize) -> &[u8]>(
    bundle: &mut [u8],
    slots: &[u8],
    line: &[u8],
    part: F,
) -> usize
    requires { F.IsAlwaysCallable part }
{
    let mut end: usize = 0;
    for word in line.split(is_space).skip(1) {
        let Some(s) = slot(word) else {
            break;
        };
        end = put(bundle, end, part(slots, s));
    }
    end
}

// Offers a bundle of what each slot that a line names adds. The answers go to the output buffer.
pub fn offer<F: Fn(&[u8], usize) -> &[u8]>(
    l: Ledger,
    store: &mut [u8],
    slots: &[u8],
    out: &mut [u8],
    line: &[u8],
    part: F,
) -> Ledger
    requires { F.IsAlwaysCallable part }
{
    let mut bundle = [0u8; BUNDLE_ROOM];
    let n = lay_out(&mut bundle, slots, line, part);
    let offered = ledger::offer_bundle(l, store, slice_of(&bundle, 0, n), out);
    show::bundled(offered.answer, out);
    offered.ledger
}
