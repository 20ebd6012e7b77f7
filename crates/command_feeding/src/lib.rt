// The command's work on a piece of the input: its bytes to lines, and lines to answers. A piece may have any length.
#![tactic(auto)]

ghost use Rattle.command_syntax.specs.Line.{line_in};
ghost use Rattle.command_feeding.specs.Answering.{Answers};
ghost use Rattle.command_feeding.specs.Feeding.{Feeds, Feeding};

use command_answers::{print_reply, read_offer};
use command_lines::take_line;
use command_syntax::{MAX_LINE, MAX_OFFERED};
use ledger::{Answer, Ledger, Refusal};

// The longest answer is `(taken waiting 64 64)` and its newline.
pub const MAX_ANSWER: usize = 22;

// What a piece of input comes to: the ledger; how long the line so far is, as `command_lines::take_line` counts; how many bytes of the piece were consumed; and how many
// bytes of output were put at the start of the output buffer.
#[derive(Clone, Copy)]
pub struct Fed {
    pub ledger: Ledger,
    pub fill: usize,
    pub consumed: usize,
    pub written: usize,
}

// The line buffer has not MAX_LINE bytes.
#[derive(Clone, Copy, PartialEq, Eq)]
pub struct UnfitLine;

// A ledger, and what the line that led to it was answered: None where it is not read, or else what its offer was answered.
#[derive(Clone, Copy)]
struct Answered {
    ledger: Ledger,
    reply: Option<Result<Answer, Refusal>>,
}

// Answers a line of so many bytes. The struct goes in whole and comes back, and so stays in its place: a ledger by itself would be copied into it at each line.
fn answer_line(
    state: Answered,
    store: &mut [u8],
    line: &[u8],
    fill: usize,
    update: &mut [u8; MAX_OFFERED],
) -> Answered
    ensures { Answers state.ledger store.old (line_in line.now fill) result store.new }
{
    let ledger = state.ledger;
    match read_offer(line, fill, update) {
        None => Answered {
            ledger,
            reply: None,
        },
        Some(n) => {
            let o = ledger::offer(ledger, store, &update[..n]);
            Answered {
                ledger: o.ledger,
                reply: Some(o.answer),
            }
        }
    }
}

// Takes a piece of the input, up to its end or to where the output buffer has no room for another answer.
pub fn feed_lines(
    ledger: Ledger,
    store: &mut [u8],
    line: &mut [u8],
    fill: usize,
    input: &[u8],
    out: &mut [u8],
) -> Fed
    ensures { Feeds ledger store.old line.old fill input.now out.old result store.new line.new out.new }
{
    let mut update = [0u8; MAX_OFFERED];
    // before the first line: this reply is not printed
    let mut state = Answered {
        ledger,
        reply: None,
    };
    let mut length = fill;
    let mut consumed = 0;
    let mut written = 0;
    // each turn moves on by what it takes of the input and what it puts out
    while consumed < input.len() && MAX_ANSWER <= out.len() - written {
        let t = take_line(line, length, &input[consumed..]);
        consumed += t.consumed;
        length = t.fill;
        if t.ended {
            state = answer_line(state, store, line, length, &mut update);
            written += print_reply(&mut out[written..], state.reply);
            length = 0;
        }
    }
    Fed {
        ledger: state.ledger,
        fill: length,
        consumed,
        written,
    }
}

// Feeds a piece of the input. A line buffer of another length is refused, and nothing changes.
pub fn feed(
    ledger: Ledger,
    store: &mut [u8],
    line: &mut [u8],
    fill: usize,
    input: &[u8],
    out: &mut [u8],
) -> Result<Fed, UnfitLine>
    ensures { Feeding ledger store.old line.old fill input.now out.old result store.new line.new out.new }
{
    if line.len() != MAX_LINE {
        return Err(UnfitLine);
    }
    Ok(feed_lines(ledger, store, line, fill, input, out))
}
