// The errors of calls of the system.
ghost use Rattle.std.specs.Prelude.{◌≡◌, ◌<◌};
ghost use Rattle.command_streams.specs.Numbers.{errno_of, number_of};

use std::io;

// The error of a call that failed, by its number: C's errno on Linux, never 0.
#[derive(Clone, Copy, PartialEq, Eq)]
pub struct Errno {
    pub number: u32,
    ghost failed: { 0 < number },
}

// A call that was interrupted, one that would block, and an input or output error.
pub const EINTR: Errno = Errno { number: 4 };

pub const EAGAIN: Errno = Errno { number: 11 };

pub const EIO: Errno = Errno { number: 5 };

// The error of a number of C's errno.
fn numbered(errno: i32) -> Errno
    ensures { result.number ≡ errno_of errno }
{
    if errno > 0 {
        return Errno {
            number: errno.unsigned_abs(),
        };
    }
    EIO
}

// An error of std that has no number of C's errno counts as EIO.
impl From<io::Error> for Errno {
    ghost from_gives = { λ e r. r.number ≡ number_of e };

    fn from(error: io::Error) -> Errno {
        match error.raw_os_error() {
            Some(errno) => numbered(errno),
            None => EIO,
        }
    }
}
