// Standard input and output by std's single reads and writes. A call that was interrupted, or that would block, is made again. No contract can say which bytes a call
// reads or writes, nor that it is made: these say what is made of its answer. Each function that makes a call hands the answer to one that makes none.
#![tactic(auto)]

ghost use Rattle.std.specs.Prelude.{◌≡◌, ◌+◌, ◌^◌, ◌≤◌, ◌<◌, length, IfOk};
ghost use Rattle.command_streams.specs.Streams.{passing, came_to, took_some, lasting, taken_from, taken_after, ReadsAgain, WritesAgain, Reads, Writes};

mod errors;

pub use errors::Errno;
use errors::{EAGAIN, EINTR, EIO};
use std::io;
use std::io::{Input as StandardInput, Read};
use std::rt::Clock;
use std::time::Duration;

// What writing came to: how many bytes were taken, and the error of the write that failed.
#[derive(Clone, Copy)]
pub struct Moved {
    pub count: usize,
    pub error: Option<Errno>,
}

// What reading came to: how many bytes are at the start of the buffer, none at the end of the input or of the limit; what is left of the limit; and the error of a read
// that failed.
#[derive(Clone, Copy)]
pub struct Input {
    pub got: usize,
    pub left: usize,
    pub error: Option<Errno>,
}

// Whether a call with this error is made again: it was interrupted, or would block.
fn is_passing(error: Errno) -> bool
    ensures { result ≡ passing error }
{
    error == EINTR || error == EAGAIN
}

// Waits for a millisecond where a call would block, before it is made again.
fn wait<R: Clock>(rt: &R, error: Errno) {
    if error == EAGAIN {
        rt.sleep(Duration::from_millis(1));
    }
}

// What the last call came to, made again while its error passes. A proved loop has to end, so the turns are counted, up to a number that no run comes to.
fn again<R: Clock, F: FnMut() -> io::Result<usize>>(rt: &R, mut call: F) -> Result<usize, Errno>
    requires { F.IsAlwaysCallable call }
{
    for _ in 0..u64::MAX {
        match call().map_err(Errno::from) {
            Err(error) if is_passing(error) => wait(rt, error),
            came => return came,
        }
    }
    call().map_err(Errno::from)
}

// What a call came to that is not made again, though its error may pass.
fn lasting(called: Result<usize, Errno>) -> Result<usize, Errno>
    ensures { result ≡ lasting called }
{
    match called {
        Err(error) if is_passing(error) => Err(EIO),
        _ => called,
    }
}

// What a call came to that was handed so many bytes: it moved no more of them.
fn came_to(called: Result<usize, Errno>, most: usize) -> Result<usize, Errno>
    ensures { result ≡ came_to most called }
{
    Ok(called?.min(most))
}

// What a read came to, of which the limit left `left` bytes.
fn taken_from(left: usize, read: Result<usize, Errno>) -> Input
    requires { IfOk read (λ got. got ≤ left) }
    ensures { result ≡ taken_from left read }
{
    match read {
        Ok(got) => Input {
            got,
            left: left - got,
            error: None,
        },
        Err(error) => Input {
            got: 0,
            left,
            error: Some(error),
        },
    }
}

// A read, made again while its error passes.
fn read_again<R: StandardInput + Clock>(rt: &R, buffer: &mut [u8]) -> Result<usize, Errno>
    ensures { ReadsAgain (length buffer.new) result }
{
    let read = again(rt, || rt.reader().read(buffer));
    lasting(came_to(read, buffer.len()))
}

// Reads once from standard input into the buffer, where the limit leaves `left` bytes to be read.
pub fn read_some<R: StandardInput + Clock>(rt: &R, left: usize, buffer: &mut [u8]) -> Input
    ensures { Reads left (length buffer.new) result }
{
    let most = left.min(buffer.len());
    taken_from(left, read_again(rt, &mut buffer[..most]))
}

// What a write came to: one that takes nothing has failed.
fn took_some(wrote: Result<usize, Errno>) -> Result<usize, Errno>
    ensures { result ≡ took_some wrote }
{
    match wrote {
        Ok(0) => Err(EIO),
        _ => wrote,
    }
}

// A write, made again while its error passes.
fn write_some<R: Print + Clock>(rt: &R, bytes: &[u8]) -> Result<usize, Errno>
    ensures { WritesAgain (length bytes.now) result }
{
    let wrote = again(rt, || rt.write_some(bytes));
    lasting(took_some(came_to(wrote, bytes.len())))
}

// What writing came to, where `before` bytes were taken before and the next write came to `wrote`.
fn taken_after(before: usize, wrote: Result<usize, Errno>) -> Moved
    requires { IfOk wrote (λ n. before + n < 2 ^ 64) }
    ensures { result ≡ taken_after before wrote }
{
    match wrote {
        Ok(n) => Moved {
            count: before + n,
            error: None,
        },
        Err(failed) => Moved {
            count: before,
            error: Some(failed),
        },
    }
}

// Writes the bytes to standard output, from the first on, until all are taken or a write fails.
pub fn write_all<R: Print + Clock>(rt: &R, bytes: &[u8]) -> Moved
    ensures { Writes (length bytes.now) result.count result.error }
{
    let mut at = 0;
    // a `while`: a write says how far it goes on
    while at < bytes.len() {
        let done = taken_after(at, write_some(rt, &bytes[at..]));
        if done.error.is_some() {
            return done;
        }
        at = done.count;
    }
    Moved {
        count: at,
        error: None,
    }
}

// A line on standard error: the words before the error's number, the number, and the words after it. That this fails can be told nowhere. Standard error takes bytes
// by its own handle, which the runtime that `main` is given has; `Eprint` takes text.
pub fn tell(rt: &HostRuntime, before: &[u8], error: u64, after: &[u8]) {
    let to = rt.stderr();
    let _ = to.write_all(before);
    let _ = to.print(error);
    let _ = to.write_all(after);
}
