// Runs a script of calls of the ledger, and prints their answers. The script's first lines say how it reads.
#![tactic(auto)]

mod bundles;
mod calls;
mod commands;
mod compare;
mod lookups;
mod plain;
mod show;

use commands::{Command, Lent, command_of};
use ledger::Ledger;
use plain::{BUFFER_ROOM, FILL, STORE_ROOM, called, prepare};
use test_script::{ROOM, bytes_of, item_of, lend, slot, word};

// The descriptor of standard input.
const STDIN_FILENO: i32 = 0;

const NEWLINE: u8 = b'\n';

// Writes what the slot that a line names asks for.
fn write(l: Ledger, store: &[u8], slots: &mut [u8], out: &mut [u8], line: &[u8]) {
    if let Some(s) = slot(word(line, 1)) {
        calls::write(l, store, slots, out, s);
    }
}

// The commands that look at the ledger.
fn look(l: Ledger, store: &[u8], slots: &mut [u8], out: &mut [u8], c: Command, line: &[u8]) {
    match c {
        Command::Length(Lent::Buffer) => out.fill(FILL),
        Command::Ask => calls::ask(l, store, called(slots, line)),
        Command::Write => write(l, store, slots, out, line),
        Command::New => write(ledger::fresh(), store, slots, out, line),
        Command::Report => calls::report(l, store, out),
        Command::View => show::view(store, out),
        Command::Order => calls::order(l, line),
        Command::ReportAs(form) => calls::report_as(l, store, form, out),
        Command::Rooms => calls::rooms(),
        Command::Lookup => lookups::lookup(l, store, slots, out, line),
        Command::Spread => lookups::spread(l, store, out, line),
        Command::Asks => lookups::asks(l, store, out, line),
        _ => {}
    }
}

// The commands after which the ledger is another.
fn change(
    l: Ledger,
    store: &mut [u8],
    slots: &[u8],
    out: &mut [u8],
    c: Command,
    line: &[u8],
) -> Ledger {
    match c {
        Command::Fresh => {
            store.fill(FILL);
            ledger::fresh()
        }
        Command::Offer => calls::offers(l, store, slots, line),
        Command::Bundle => bundles::offer(l, store, slots, out, line, item_of),
        Command::Raw => bundles::offer(l, store, slots, out, line, bytes_of),
        Command::Change => calls::changed(l, line),
        _ => l,
    }
}

// Runs a line.
fn step(l: Ledger, store: &mut [u8], slots: &mut [u8], out: &mut [u8], line: &[u8]) -> Ledger {
    let c = command_of(line);
    prepare(slots, c, line);
    let lent = lend(slots, Lent::Store.slot(), store);
    let page = lend(slots, Lent::Buffer.slot(), out);
    look(l, lent, slots, page, c, line);
    change(l, lent, slots, page, c, line)
}

// Runs the lines of a script.
fn run(script: &[u8], store: &mut [u8], slots: &mut [u8], out: &mut [u8]) {
    let mut l = ledger::fresh();
    for line in script.split(|b| *b == NEWLINE) {
        l = step(l, store, slots, out, line);
    }
}

fn main() {
    let mut script = io::large_buffer();
    let n = io::read_full(STDIN_FILENO, &mut script);
    run(
        &script[..n],
        &mut [FILL; STORE_ROOM],
        &mut [0u8; ROOM],
        &mut [FILL; BUFFER_ROOM],
    );
}
