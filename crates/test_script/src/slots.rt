// Byte strings, in slots of one lent array. Slots are called 0 to 92 and a to z. The first two bytes of a slot are the length of its bytes, which may go on over the
// slots after it: so the slots are one array, and no array of slots.
ghost use Rattle.std.specs.Prelude.{◌≤◌, length};

use crate::words::{after, byte, field, is_space, number};
use update_format::slice_of;

// How many bytes a slot takes, and how many of them are for the length.
const SLOT: usize = 640;

const HEAD: usize = 2;

// How many slots there are: those of letters have the letters' own numbers.
const SLOTS: usize = 123;

// How many bytes they take.
pub const ROOM: usize = SLOT * SLOTS;

// The first of the slots that words do not call, whose lengths are the program's.
pub const LENGTHS: usize = 93;

// The slot of a letter, if it calls one.
pub fn of_letter(b: u8) -> Option<usize> {
    b.is_ascii_lowercase().then_some(usize::from(b))
}

// The slot that a word calls, if it calls one.
pub fn slot(s: &[u8]) -> Option<usize> {
    match s {
        [b] if b'9' < *b => of_letter(*b),
        _ => number(s).filter(|n| *n < LENGTHS),
    }
}

// Where a slot begins; for a slot that there is not, past the last.
fn start(s: usize) -> usize
    ensures { result ≤ 78720 }
{
    if s < SLOTS { SLOT * s } else { ROOM }
}

// The length of a slot's bytes.
fn length_of(slots: &[u8], s: usize) -> usize
    ensures { result ≤ 65535 }
{
    let at = start(s);
    usize::from(u16::from_be_bytes([byte(slots, at), byte(slots, at + 1)]))
}

// Puts bytes at a place, where they fit, and gives the place past them.
pub fn put(slots: &mut [u8], at: usize, bytes: &[u8]) -> usize {
    if slots.len() < at || slots.len() - at < bytes.len() {
        return at;
    }
    let end = at + bytes.len();
    slots[at..end].copy_from_slice(bytes);
    end
}

// Another length, at most the largest.
pub fn set_length(slots: &mut [u8], s: usize, n: usize) {
    let length = u16::try_from(n).unwrap_or(u16::MAX);
    put(slots, start(s), &length.to_be_bytes());
}

// The bytes of a slot.
pub fn bytes_of(slots: &[u8], s: usize) -> &[u8] {
    slice_of(slots, start(s) + HEAD, length_of(slots, s))
}

// The same after their length, in two bytes: an item of a bundle.
pub fn item_of(slots: &[u8], s: usize) -> &[u8] {
    slice_of(slots, start(s), HEAD + length_of(slots, s))
}

// The first bytes of a whole, as many as a slot has.
pub fn lend<'a>(slots: &[u8], s: usize, whole: &'a mut [u8]) -> &'a mut [u8] {
    let n = length_of(slots, s).min(whole.len());
    &mut whole[..n]
}

// Other bytes.
pub fn set(slots: &mut [u8], s: usize, bytes: &[u8]) {
    put(slots, start(s) + HEAD, bytes);
    set_length(slots, s, bytes.len());
}

// Puts a byte at a place, n times, as far as there is room, and gives the place past them.
fn repeat(slots: &mut [u8], at: usize, b: u8, n: usize) -> usize {
    let end = at.saturating_add(n).min(slots.len());
    if end < at {
        return at;
    }
    slots[at..end].fill(b);
    end
}

// What a part puts: the id of a slot's bytes; or a byte, so many times.
#[derive(Clone, Copy)]
enum Part {
    Id(usize),
    Bytes(u8, usize),
}

// The part that a word is, if it is one: `id:a`, the id of the bytes of a; `77*16`, the byte 77, 16 times; `77`, once.
fn read_part(s: &[u8]) -> Option<Part> {
    if let Some(called) = s.strip_prefix(b"id:") {
        return Some(Part::Id(slot(called)?));
    }
    let first = field(s, 0, b'*');
    let b = u8::try_from(number(first)?).ok()?;
    let times = if first.len() == s.len() {
        1
    } else {
        number(after(s, b'*'))?
    };
    Some(Part::Bytes(b, times))
}

// Whether a word is a part.
pub fn is_part(s: &[u8]) -> bool {
    read_part(s).is_some()
}

// Puts a part at a place, and gives the place past it.
fn add_part(slots: &mut [u8], at: usize, s: &[u8]) -> usize {
    match read_part(s) {
        Some(Part::Id(called)) => {
            let id = sha256_digest::digest(bytes_of(slots, called));
            put(slots, at, &id)
        }
        Some(Part::Bytes(b, n)) => repeat(slots, at, b, n),
        None => at,
    }
}

// Puts the parts of a line together in the slot that its second word calls.
pub fn build(slots: &mut [u8], line: &[u8]) {
    let Some(s) = slot(field(line, 1, b' ')) else {
        return;
    };
    let first = start(s) + HEAD;
    let mut end = first;
    for word in line.split(is_space).skip(2) {
        if word.is_empty() {
            break;
        }
        end = add_part(slots, end, word);
    }
    set_length(slots, s, end.saturating_sub(first));
}
