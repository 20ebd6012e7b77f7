// The command's work on slices: the input in pieces of any length, which `command_feeding` answers, and the report at the end.
#![tactic(auto)]

ghost use Rattle.std.specs.Prelude.{◌≡◌, ◌≤◌, length};
ghost use Rattle.ledger_state.specs.View.{book_of};
ghost use Rattle.command_session.specs.Finishing.{end_values, put_out, ReportsAt, Finishes};

use command_feeding::feed_lines;
pub use command_feeding::{Fed, MAX_ANSWER, UnfitLine, feed};
use command_syntax::MAX_LINE;
use ledger::{Form, Ledger, MAX_REPORT, Refusal};

// The longest end of an output: an answer and a report.
pub const MAX_END: usize = MAX_ANSWER + MAX_REPORT;

// Why the end of the input comes to no report.
#[derive(Clone, Copy, PartialEq, Eq)]
pub enum Unfinished {
    // The report is refused: so many bytes of output, the answer to the last line, if one was begun.
    Unreported { written: usize, refusal: Refusal },
    // The output buffer is shorter than the longest end.
    Short,
    // The line buffer has not MAX_LINE bytes.
    UnfitLine,
}

// How many bytes of output the end of the input comes to.
pub fn written(end: Result<usize, Unfinished>) -> usize
    ensures { result ≡ put_out (end_values end) }
{
    match end {
        Ok(n) => n,
        Err(Unfinished::Unreported { written, .. }) => written,
        Err(Unfinished::Short) => 0,
        Err(Unfinished::UnfitLine) => 0,
    }
}

// Puts the full report after the first `at` bytes of the output buffer.
fn report_at(ledger: Ledger, store: &[u8], out: &mut [u8], at: usize) -> Result<usize, Unfinished>
    requires { at ≤ length out.old }
    ensures { ReportsAt (book_of ledger) store.now at out.old (end_values result) out.new }
{
    match ledger::report_as(ledger, store, Form::Full, &mut out[at..]) {
        Ok(n) => Ok(at + n),
        Err(refusal) => Err(Unfinished::Unreported {
            written: at,
            refusal,
        }),
    }
}

// The end of the input: the answer to a last line that lacks its newline, and the report; and how many bytes of output they are. A copy of that line is fed a newline.
pub fn finish(
    ledger: Ledger,
    store: &mut [u8],
    line: &[u8],
    fill: usize,
    out: &mut [u8],
) -> Result<usize, Unfinished>
    ensures { Finishes ledger store.old line.now fill out.old result store.new out.new }
{
    if line.len() != MAX_LINE {
        return Err(Unfinished::UnfitLine);
    }
    if out.len() < MAX_END {
        return Err(Unfinished::Short);
    }
    if fill == 0 {
        return report_at(ledger, store, out, 0);
    }
    let mut last = [0u8; MAX_LINE];
    last.copy_from_slice(line);
    let f = feed_lines(
        ledger,
        store,
        &mut last,
        fill,
        b"\n",
        &mut out[..MAX_ANSWER],
    );
    report_at(f.ledger, store, out, f.written)
}
