// Looking many ids up: in one call, and one by one.
use crate::bundles::{BUNDLE_ROOM, lay_out};
use crate::show;
use crate::show::Digits;
use ledger::{Ledger, Refusal};
use standing_bytes::{UNKNOWN, standing_byte};
use test_script::{bytes_of, number, put, word};
use update_format::numbers::ID_LENGTH;
use update_format::{Id, slice_of};

// The most ids of a spread, and how many bytes they have.
const MOST: usize = 10000;

const SPREAD_ROOM: usize = MOST * ID_LENGTH;

// How many numbers four bytes spell.
const NUMBERS: usize = 4294967296;

// Asks after ids that lie end to end, and prints the answers.
fn look_up(l: Ledger, store: &[u8], asked: &[u8], out: &mut [u8], digits: Digits) {
    let r = ledger::standings(l, store, asked, out);
    show::looked_up(r, slice_of(out, 0, asked.len() / ID_LENGTH), digits);
}

// Asks after the ids that are the bytes of the slots that a line names, end to end.
pub fn lookup(l: Ledger, store: &[u8], slots: &[u8], out: &mut [u8], line: &[u8]) {
    let mut asked = [0u8; BUNDLE_ROOM];
    let n = lay_out(&mut asked, slots, line, bytes_of);
    look_up(l, store, slice_of(&asked, 0, n), out, Digits::All);
}

// How many ids a line asks after.
fn count(line: &[u8]) -> usize {
    number(word(line, 1)).unwrap_or(0).min(MOST)
}

// How far the first four bytes of an id of a spread of n are from those of the next.
fn distance(n: usize) -> usize {
    NUMBERS.checked_div(n).unwrap_or(0)
}

// The id that has a number in its first four bytes, and zeros in the others.
fn id(number: usize) -> Id {
    let mut id = [0u8; ID_LENGTH];
    let four = (number % NUMBERS) as u32;
    id[..4].copy_from_slice(&four.to_be_bytes());
    id
}

// Lays out the ids of a spread of n, and gives how many bytes that is.
fn lay_out_spread(ids: &mut [u8], n: usize) -> usize {
    let mut end: usize = 0;
    let mut number: usize = 0;
    for _ in 0..n {
        end = put(ids, end, &id(number));
        number = number.wrapping_add(distance(n));
    }
    end
}

// Asks after a spread of ids in one call.
pub fn spread(l: Ledger, store: &[u8], out: &mut [u8], line: &[u8]) {
    let mut ids = [0u8; SPREAD_ROOM];
    let end = lay_out_spread(&mut ids, count(line));
    look_up(l, store, slice_of(&ids, 0, end), out, Digits::Digest);
}

// Asks after a spread of n ids one by one, up to the first refusal, and puts the bytes of the answers.
fn ask_each(l: Ledger, store: &[u8], out: &mut [u8], n: usize) -> Result<(), Refusal> {
    let mut number: usize = 0;
    for k in 0..n {
        let standing = ledger::standing(l, store, id(number))?;
        put(out, k, &[standing.map_or(UNKNOWN, standing_byte)]);
        number = number.wrapping_add(distance(n));
    }
    Ok(())
}

// Asks after a spread of ids one by one, and prints the answers.
pub fn asks(l: Ledger, store: &[u8], out: &mut [u8], line: &[u8]) {
    let n = count(line);
    let r = ask_each(l, store, out, n);
    show::asked_each(r, slice_of(out, 0, n));
}
