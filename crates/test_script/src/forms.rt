// What the words of a command must be.
use crate::slots::{is_part, of_letter, slot};
use crate::words::{byte, is_space, number};

// How many slots a list has at most.
pub const LISTED: usize = 9;

// Whether a word is a list: letters of slots, at most so many.
fn is_list(s: &[u8]) -> bool {
    !s.is_empty() && s.len() <= LISTED && s.iter().all(|b| of_letter(*b).is_some())
}

// Whether a word is what a letter asks for: n, a number; s, a slot; p, a part; l, a list. Other letters ask for no word.
fn is_word(s: &[u8], letter: u8) -> bool {
    match letter {
        b'n' => number(s).is_some(),
        b's' => slot(s).is_some(),
        b'p' => is_part(s),
        b'l' => is_list(s),
        _ => false,
    }
}

// Whether the words of a line after the first have a form: a word for each letter but the first, which is for all further ones.
pub fn fits(line: &[u8], form: &[u8]) -> bool {
    let mut letters = form.iter().skip(1);
    for word in line.split(is_space).skip(1) {
        if word.is_empty() {
            break;
        }
        let letter = letters.next().copied().unwrap_or(byte(form, 0));
        if !is_word(word, letter) {
            return false;
        }
    }
    letters.next().is_none()
}
