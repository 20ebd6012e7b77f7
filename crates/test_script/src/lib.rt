// Scripts: lines of words, what the words of a command must be, and byte strings in slots that words call.
#![tactic(auto)]

mod forms;
mod slots;
mod words;

pub use forms::{LISTED, fits};
pub use slots::{
    LENGTHS, ROOM, build, bytes_of, item_of, lend, of_letter, put, set, set_length, slot,
};
pub use words::{byte, is_space, number, word};
