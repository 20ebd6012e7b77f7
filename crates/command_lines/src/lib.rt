// Input lines, assembled in a lent buffer from pieces of the input.
#![tactic(auto)]

ghost use Rattle.command_lines.specs.Lines.{FirstNewline, Appends, TakesLine};

use bytes_copy::copy;
use command_syntax::MAX_LINE;
use memchr::memchr;

const NEWLINE: u8 = b'\n';

// What a piece adds to the line so far: the length so far, how many bytes of the piece were consumed, and whether the line has ended. All three are there in both
// cases: an enum of the two would have the same two fields in each.
#[derive(Clone, Copy)]
pub struct Assembled {
    pub fill: usize,
    pub consumed: usize,
    pub ended: bool,
}

// The index of the first newline; the length, where there is none.
#[tactic(auto, using(crate::proofs::Searching::first))]
fn find_newline(s: &[u8]) -> usize
    ensures { FirstNewline s.now result }
{
    memchr(NEWLINE, s).unwrap_or(s.len())
}

// Adds the text to a line of so many bytes, and gives its new length. A length over MAX_LINE stands for every length over it: no bytes are kept then.
// The line and its length are the public interface's, of `command_session`.
fn append(line: &mut [u8], fill: usize, text: &[u8]) -> usize
    ensures { Appends line.old fill text.now result line.new }
{
    if MAX_LINE < fill || line.len() < fill || line.len() - fill < text.len() {
        return MAX_LINE + 1;
    }
    copy(&mut line[fill..], text);
    fill + text.len()
}

// Takes the input up to its first newline, and the newline with it, or else all of it.
pub fn take_line(line: &mut [u8], fill: usize, input: &[u8]) -> Assembled
    ensures { TakesLine line.old fill input.now result line.new }
{
    let at = find_newline(input);
    let fill = append(line, fill, &input[..at]);
    if at == input.len() {
        return Assembled {
            fill,
            consumed: at,
            ended: false,
        };
    }
    Assembled {
        fill,
        consumed: at + 1,
        ended: true,
    }
}
