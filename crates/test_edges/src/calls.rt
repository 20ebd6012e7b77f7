// Calls of the ledger.
use crate::show;
use crate::show::{decimal, digest, refused, text};
use ledger::{Form, Kind, Ledger, Refusal};
use ledger_state::places::causal_order;
use std::array;
use test_script::{byte, bytes_of, is_space, number, set, slot, word};
use update_format::numbers::{ID_LENGTH, TAG_LENGTH};
use update_format::slice_of;

// Offers the bytes of each slot that a line names.
pub fn offers(l: Ledger, store: &mut [u8], slots: &[u8], line: &[u8]) -> Ledger {
    let mut next = l;
    for word in line.split(is_space).skip(1) {
        let Some(s) = slot(word) else {
            break;
        };
        let offered = ledger::offer(next, store, bytes_of(slots, s));
        show::offered(offered.answer);
        next = offered.ledger;
    }
    next
}

// Asks how an update stands.
pub fn ask(l: Ledger, store: &[u8], update: &[u8]) {
    show::asked(ledger::standing(l, store, sha256_digest::digest(update)));
}

// Prints a report, or why there is none.
fn reported(r: Result<usize, Refusal>, out: &[u8]) {
    match r {
        Ok(n) => text(slice_of(out, 0, n)),
        Err(e) => refused(e),
    }
}

// Prints the report with no form named.
pub fn report(l: Ledger, store: &[u8], out: &mut [u8]) {
    let r = ledger::report(l, store, out);
    reported(r, out);
}

// Prints the report in the form.
pub fn report_as(l: Ledger, store: &[u8], form: Form, out: &mut [u8]) {
    let r = ledger::report_as(l, store, form, out);
    reported(r, out);
}

// Prints what every report of each form has room in.
pub fn rooms() {
    text(b"(room ");
    decimal(ledger::room(Form::Full));
    text(b" ");
    decimal(ledger::room(Form::Short));
    text(b")\n");
}

// Asks for an update: its author, its kind, the byte of which its tag is 16, its id, and its named ids. Zeros stand for missing bytes of the id.
fn ask_for(l: Ledger, store: &[u8], request: &[u8], out: &mut [u8]) -> Result<usize, Refusal> {
    let kind = Kind::try_from(byte(request, 1)).unwrap_or(Kind::Delete);
    let tag = [byte(request, 2); TAG_LENGTH];
    let id = array::from_fn(|i| byte(request, 3 + i));
    let named = slice_of(request, 3 + ID_LENGTH, request.len());
    ledger::write(l, store, byte(request, 0), kind, tag, id, named, out)
}

// Puts a written update in a slot, and prints its length and id.
fn keep_written(slots: &mut [u8], s: usize, update: &[u8]) {
    set(slots, s, update);
    text(b"(written ");
    decimal(update.len());
    text(b" ");
    digest(update);
}

// Writes what a slot asks for, and puts what was written in its place. Where the write is refused, the slot keeps what it asked for.
pub fn write(l: Ledger, store: &[u8], slots: &mut [u8], out: &mut [u8], s: usize) {
    match ask_for(l, store, bytes_of(slots, s), out) {
        Ok(n) => keep_written(slots, s, slice_of(out, 0, n)),
        Err(r) => refused(r),
    }
}

// The number that the k-th word of a line spells.
fn nth_number(line: &[u8], k: usize) -> usize {
    number(word(line, k)).unwrap_or(0)
}

// The ledger with another count of taken places, and another length and other ancestors in a place.
pub fn changed(l: Ledger, line: &[u8]) -> Ledger {
    let mut next = l;
    next.used = nth_number(line, 1);
    if let Some(place) = next.places.get_mut(nth_number(line, 2)) {
        place.length = nth_number(line, 3);
        place.ancestors = nth_number(line, 4) as u64;
    }
    next
}

// How the update at one place stands to that at another, where there are such places.
pub fn order(l: Ledger, line: &[u8]) {
    let k = nth_number(line, 1);
    let q = nth_number(line, 2);
    if let (Some(own), Some(other)) = (l.places.get(k), l.places.get(q)) {
        show::ordered(causal_order(*own, k, *other, q));
    }
}
