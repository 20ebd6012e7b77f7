// The command's loop: reads, feeds what was read, and writes what that puts out. The work on the bytes is `command_session`, the calls are `command_streams`. What is
// made of the answers of these is `next_state` and `ended_by`, which make no call.
#![tactic(auto)]

ghost use Rattle.std.specs.Prelude.{◌≡◌, ◌≤◌, length};
ghost use Rattle.command_loop.specs.Command.{next_state, ended_by, HandsOn, Passes, BeginsRun, Steps, Ends, Runs, Commands};

use command_session::Fed;
use command_streams::{Errno, Input, Moved};
use command_syntax::MAX_LINE;
use ledger::Ledger;
use ledger_state::STORE_LENGTH;
use std::io::Input as StandardInput;
use std::rt::Clock;

// How many bytes are read at a time, and written.
const CHUNK: usize = 65536;

const OUT: usize = 65536;

// Document 01: "The command reads at most 4,294,967,296 bytes".
const MAX_INPUT: usize = 4294967296;

// What a piece of a chunk comes to: what `feed` gives; how many bytes of the output `write` took; and the error of a write that failed.
#[derive(Clone, Copy)]
struct Handed {
    fed: Fed,
    taken: usize,
    error: Option<Errno>,
}

// What a chunk of the input comes to: the ledger, the length of the line so far, and the error of a write that failed.
#[derive(Clone, Copy)]
struct Passed {
    ledger: Ledger,
    fill: usize,
    error: Option<Errno>,
}

// What the command's loop carries: the ledger; the length of the line so far; how many bytes of the chunk were read last, none at the end of the input; what is left of
// the limit; and the errors of a read and of a write that failed.
#[derive(Clone, Copy)]
struct State {
    ledger: Ledger,
    fill: usize,
    got: usize,
    left: usize,
    reading: Option<Errno>,
    writing: Option<Errno>,
}

// What the command came to: how many bytes of the end of the output `write` took; what is left of the limit; and the two errors.
#[derive(Clone, Copy)]
pub struct Ended {
    pub taken: usize,
    pub left: usize,
    pub reading: Option<Errno>,
    pub writing: Option<Errno>,
}

// Feeds the chunk from byte `at` on, as far as there is room for answers, and writes what that puts out.
fn hand_on<R: Print + Clock>(
    rt: &R,
    ledger: Ledger,
    store: &mut [u8],
    line: &mut [u8; MAX_LINE],
    fill: usize,
    chunk: &[u8],
    at: usize,
    out: &mut [u8],
) -> Handed
    requires { at ≤ length chunk.now }
    ensures { HandsOn ledger store.old line.old fill chunk.now at out.old result store.new line.new out.new }
{
    let fed = command_session::feed(ledger, store, line, fill, &chunk[at..], out).unwrap();
    let wrote = command_streams::write_all(rt, &out[..fed.written]);
    Handed {
        fed,
        taken: wrote.count,
        error: wrote.error,
    }
}

// Feeds a chunk, and writes what it puts out. Each turn has room for an answer, and so consumes some of the chunk.
fn pass_on<R: Print + Clock>(
    rt: &R,
    ledger: Ledger,
    store: &mut [u8],
    line: &mut [u8; MAX_LINE],
    fill: usize,
    chunk: &[u8],
    out: &mut [u8; OUT],
) -> Passed
    ensures { Passes ledger store.old line.old fill chunk.now result store.new line.new }
{
    let mut current = ledger;
    let mut length = fill;
    let mut at = 0;
    // a `while`: a piece says how far it goes on
    while at < chunk.len() {
        let h = hand_on(rt, current, store, line, length, chunk, at, out);
        current = h.fed.ledger;
        length = h.fed.fill;
        if h.error.is_some() {
            return Passed {
                ledger: current,
                fill: length,
                error: h.error,
            };
        }
        at += h.fed.consumed;
    }
    Passed {
        ledger: current,
        fill: length,
        error: None,
    }
}

// The state after a chunk, of what it came to and of what was read next.
fn next_state(p: Passed, i: Input) -> State
    ensures { result ≡ next_state p i }
{
    State {
        ledger: p.ledger,
        fill: p.fill,
        got: i.got,
        left: i.left,
        reading: i.error,
        writing: p.error,
    }
}

// The beginning: a fresh ledger, no line, and the first bytes of the input.
fn begin<R: StandardInput + Clock>(rt: &R, chunk: &mut [u8]) -> State
    ensures { BeginsRun result chunk.new }
{
    let i = command_streams::read_some(rt, MAX_INPUT, chunk);
    let p = Passed {
        ledger: ledger::fresh(),
        fill: 0,
        error: None,
    };
    next_state(p, i)
}

// Feeds what was read last, and reads on, unless a write failed.
fn step<R: StandardInput + Print + Clock>(
    rt: &R,
    state: State,
    store: &mut [u8],
    line: &mut [u8; MAX_LINE],
    chunk: &mut [u8],
    out: &mut [u8; OUT],
) -> State
    requires { state.got ≤ length chunk.old }
    ensures { Steps state store.old line.old chunk.old result store.new line.new chunk.new }
{
    let p = pass_on(
        rt,
        state.ledger,
        store,
        line,
        state.fill,
        &chunk[..state.got],
        out,
    );
    if p.error.is_some() {
        let none = Input {
            got: 0,
            left: state.left,
            error: None,
        };
        return next_state(p, none);
    }
    let i = command_streams::read_some(rt, state.left, chunk);
    next_state(p, i)
}

// The end of the input. With room for the longest end, there always is a report (`command-output`, specs/CommandLaws).
fn end<R: Print + Clock>(
    rt: &R,
    ledger: Ledger,
    store: &mut [u8],
    line: &[u8],
    fill: usize,
    out: &mut [u8],
) -> Moved
    ensures { Ends ledger store.old line.now fill out.old result store.new out.new }
{
    let finished = command_session::finish(ledger, store, line, fill, out);
    let n = command_session::written(finished);
    command_streams::write_all(rt, &out[..n])
}

// What the command came to, of the last state and of what the last write came to.
fn ended_by(state: State, m: Moved) -> Ended
    ensures { result ≡ ended_by state m }
{
    Ended {
        taken: m.count,
        left: state.left,
        reading: state.reading,
        writing: m.error,
    }
}

// Reads, feeds and writes, up to the limit.
fn run_on<R: StandardInput + Print + Clock>(
    rt: &R,
    store: &mut [u8],
    line: &mut [u8; MAX_LINE],
    chunk: &mut [u8],
    out: &mut [u8; OUT],
) -> Ended
    ensures { Runs store.old line.old result store.new line.new out.new }
{
    let mut state = begin(rt, chunk);
    // a `while`: a read says whether there is something to feed
    while 0 < state.got {
        state = step(rt, state, store, line, chunk, out);
    }
    if state.writing.is_some() {
        let none = Moved {
            count: 0,
            error: state.writing,
        };
        return ended_by(state, none);
    }
    let m = end(rt, state.ledger, store, line, state.fill, out);
    ended_by(state, m)
}

// The command, from a fresh ledger to the report.
pub fn run<R: StandardInput + Print + Clock>(rt: &R) -> Ended
    ensures { Commands result }
{
    let mut store = [0u8; STORE_LENGTH];
    let mut line = [0u8; MAX_LINE];
    let mut chunk = [0u8; CHUNK];
    let mut out = [0u8; OUT];
    run_on(rt, &mut store, &mut line, &mut chunk, &mut out)
}
