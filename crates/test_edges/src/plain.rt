// The commands that take no ledger.
use crate::commands::Command;
use crate::compare::compare;
use crate::show;
use crate::show::text;
use ledger::MAX_REPORT;
use ledger_state::STORE_LENGTH;
use test_script::{build, bytes_of, number, set_length, slot, word};

// What stores and output buffers are filled with.
pub const FILL: u8 = 165;

// A byte more than a store has, and what every report fits.
pub const STORE_ROOM: usize = STORE_LENGTH + 1;

pub const BUFFER_ROOM: usize = MAX_REPORT;

// The bytes of the slot that the first word after a command calls.
pub fn called<'a>(slots: &'a [u8], line: &[u8]) -> &'a [u8] {
    match slot(word(line, 1)) {
        Some(s) => bytes_of(slots, s),
        None => &[],
    }
}

// The commands that set a length or a slot, and those that only print.
pub fn prepare(slots: &mut [u8], c: Command, line: &[u8]) {
    match c {
        Command::Length(lent) => {
            set_length(slots, lent.slot(), number(word(line, 1)).unwrap_or(0));
        }
        Command::Let | Command::Write | Command::New => build(slots, line),
        Command::Read => show::read(update_parsing::read(called(slots, line))),
        Command::Compare => compare(slots, word(line, 1), word(line, 2)),
        Command::Heading => {
            text(line);
            text(b"\n");
        }
        Command::Unread => text(b"unread\n"),
        _ => {}
    }
}
