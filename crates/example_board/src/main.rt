// A board to copy: it books hours in a fresh ledger, and writes the short report to standard output.
#![tactic(auto)]

use ledger::Refusal;
use ledger_state::STORE_LENGTH;

// The descriptor of standard output.
const STDOUT_FILENO: i32 = 1;

fn main() {
    // A ledger goes in by value and the new one comes back; the bytes of its updates lie in the store.
    let fresh = ledger::fresh();
    let mut store = [0u8; STORE_LENGTH];

    // An Add: version 1, author 3, 0 predecessors, kind 1, and the tag, which has 16 bytes.
    let update = b"\x01\x03\x00\x01mon 08-10.......";
    // `offered.answer` says how the update stands; this board does not ask.
    let offered = ledger::offer(fresh, &mut store, update);
    let ledger = offered.ledger;

    // Every short report fits this page. The first n bytes are the report.
    let mut page = [0u8; ledger::MAX_SHORT_REPORT];
    match ledger::report(ledger, &store, &mut page) {
        Ok(n) => {
            io::write_all(STDOUT_FILENO, &page[..n]);
        }
        Err(refusal) => complain(refusal),
    }
}

// Writes a refusal's number in a line.
fn complain(refusal: Refusal) {
    io::print_decimal(STDOUT_FILENO, u64::from(refusal.number()));
    io::write_all(STDOUT_FILENO, b"\n");
}
