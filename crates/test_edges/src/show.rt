// Answers, as the lines that the command prints for them.
ghost use Rattle.std.specs.Prelude.{◌<◌};

use ledger::{ANSWER_LENGTH, Answer, Refusal, Standing};
use replicas_check::{Comparison, Unreported};
use rules::CausalOrder;
use update_format::{Malformed, Parsed, slice_of};

// The descriptor of standard output.
const STDOUT_FILENO: i32 = 1;

pub fn text(s: &[u8]) {
    io::write_all(STDOUT_FILENO, s);
}

pub fn decimal(n: usize) {
    io::print_decimal(STDOUT_FILENO, n as u64);
}

fn standing(s: Standing) {
    match s {
        Standing::Held => text(b"held"),
        Standing::Waiting => text(b"waiting"),
        Standing::Void => text(b"void"),
    }
}

// A number, and the end of the line.
fn last_number(n: usize) {
    decimal(n);
    text(b")\n");
}

// A refusal.
pub fn refused(r: Refusal) {
    text(b"(refused ");
    last_number(usize::from(r.number()));
}

fn taken(s: Standing, held: usize, void: usize) {
    text(b"(taken ");
    standing(s);
    text(b" ");
    decimal(held);
    text(b" ");
    last_number(void);
}

// What an offer is answered.
pub fn offered(answer: Result<Answer, Refusal>) {
    match answer {
        Ok(
            Answer::Taken {
                standing: s,
                held,
                void,
            },
        ) => taken(s, held, void),
        Ok(Answer::Known(s)) => {
            text(b"(known ");
            standing(s);
            text(b")\n");
        }
        Err(r) => refused(r),
    }
}

// How an update stands.
pub fn asked(answer: Result<Option<Standing>, Refusal>) {
    text(b"(standing ");
    match answer {
        Ok(Some(s)) => standing(s),
        Ok(None) => text(b"unknown"),
        Err(r) => {
            text(b"refused ");
            decimal(usize::from(r.number()));
        }
    }
    text(b")\n");
}

// How one update stands to another.
pub fn ordered(o: CausalOrder) {
    match o {
        CausalOrder::Same => text(b"(same)\n"),
        CausalOrder::Before => text(b"(before)\n"),
        CausalOrder::After => text(b"(after)\n"),
        CausalOrder::Apart => text(b"(apart)\n"),
    }
}

// What two copies that are compared answer.
pub fn compared(c: Result<Comparison, Unreported>) {
    match c {
        Ok(Comparison::Same { length }) => {
            text(b"(same ");
            last_number(length);
        }
        Ok(Comparison::Different { first, second }) => {
            text(b"(different ");
            decimal(first);
            text(b" ");
            last_number(second);
        }
        Err(Unreported::First(r)) => {
            text(b"(first unreported ");
            last_number(usize::from(r.number()));
        }
        Err(Unreported::Second(r)) => {
            text(b"(second unreported ");
            last_number(usize::from(r.number()));
        }
    }
}

// What bytes are read as.
pub fn read(r: Result<Parsed, Malformed>) {
    match r {
        Ok(_) => text(b"(ok)\n"),
        Err(m) => refused(Refusal::from(m)),
    }
}

// Bytes in hexadecimal digits, and the end of the line.
fn hex(s: &[u8]) {
    for b in s {
        io::print_hex(STDOUT_FILENO, u64::from(*b), 2);
    }
    text(b")\n");
}

// The SHA-256 of bytes, and the end of the line.
pub fn digest(s: &[u8]) {
    hex(&sha256_digest::digest(s));
}

// Bytes in hexadecimal digits, so many of them a line.
fn lines(s: &[u8], width: usize)
    requires { 0 < width }
{
    for part in s.chunks(width) {
        text(b"(");
        hex(part);
    }
}

// What a bundle answers, and the answers to its items.
pub fn bundled(answer: Result<usize, Refusal>, out: &[u8]) {
    match answer {
        Ok(n) => {
            text(b"(answered ");
            last_number(n);
            lines(slice_of(out, 0, n), ANSWER_LENGTH);
        }
        Err(r) => refused(r),
    }
}

// How answers to ids are shown: all of them, or their SHA-256.
#[derive(Clone, Copy, PartialEq, Eq)]
pub enum Digits {
    All,
    Digest,
}

// How many answers to ids a line has.
const LINE: usize = 32;

// The answers to ids.
fn answers(s: &[u8], digits: Digits) {
    match digits {
        Digits::All => lines(s, LINE),
        Digits::Digest => {
            text(b"(answers ");
            digest(s);
        }
    }
}

// What looking ids up answers, and the answers to the ids.
pub fn looked_up(r: Result<usize, Refusal>, s: &[u8], digits: Digits) {
    match r {
        Ok(n) => {
            text(b"(compared ");
            last_number(n);
            answers(s, digits);
        }
        Err(e) => refused(e),
    }
}

// The answers to ids that were asked after one by one, or the refusal of the last.
pub fn asked_each(r: Result<(), Refusal>, s: &[u8]) {
    match r {
        Ok(()) => {
            text(b"(asked)\n");
            answers(s, Digits::Digest);
        }
        Err(e) => refused(e),
    }
}

// The SHA-256 of the output buffer and of the store.
pub fn view(store: &[u8], out: &[u8]) {
    text(b"(buffer ");
    digest(out);
    text(b"(store ");
    digest(store);
}
