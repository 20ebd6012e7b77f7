// Lines read as offers.
#![tactic(auto)]

ghost use Rattle.std.specs.Prelude.{◌≡◌, ◌*◌, ◌≤◌, length, take, drop};
ghost use Rattle.std.specs.Prelude.{Some};
ghost use Rattle.bytes_order.specs.Member.{all};
ghost use Rattle.command_syntax.specs.Syntax.{max_line, digit_of, unhex, read_line};
ghost use Rattle.command_syntax.specs.Line.{is_digit, line_in, line_for, SpellsInto};

// Document 01: "or is over 2,000 characters".
pub const MAX_LINE: usize = 2000;

// How many bytes the longest line spells: (MAX_LINE - 8) / 2.
pub const MAX_OFFERED: usize = 996;

// The value of a lowercase hexadecimal digit; none for any other byte. By two tests: with a `match` on ranges, `unhex` takes twice the time on short lines.
#[tactic(auto, unfolding(crate::specs::Syntax::digit_of))]
fn digit_value(b: u8) -> Option<u8>
    ensures { result ≡ digit_of b }
{
    if b'0' <= b && b <= b'9' {
        return Some(b - b'0');
    }
    if b'a' <= b && b <= b'f' {
        return Some(b - b'a' + 10);
    }
    None
}

// Are all of these digits? All are looked at, where `all` stops at the first that is none: so many are looked at in one go.
fn all_digits(s: &[u8]) -> bool
    ensures { result ≡ all is_digit s.now }
{
    let mut digits = true;
    for b in s {
        digits &= digit_value(*b).is_some();
    }
    digits
}

// How a whole line reads: as an offer of so many bytes; or not so.
fn read_text(line: &[u8]) -> Option<usize>
    requires { length line.now ≤ max_line }
    ensures { result ≡ line_for (read_line line.now) }
{
    let digits = line.strip_prefix(b"(offer ")?.strip_suffix(b")")?;
    if digits.len() % 2 == 1 || !all_digits(digits) {
        return None;
    }
    Some(digits.len() / 2)
}

// How a line of so many bytes reads: as an offer of so many bytes; or not so.
pub fn read_line(line: &[u8], fill: usize) -> Option<usize>
    ensures { result ≡ line_for (line_in line.now fill) }
{
    if MAX_LINE < fill {
        return None;
    }
    read_text(line.get(..fill)?)
}

// The bytes that the line spells, from its eighth byte on. The update buffer, of which n bytes are written, is the public interface's, as is the line with its length.
pub fn unhex(line: &[u8], n: usize, update: &mut [u8])
    requires { SpellsInto line.now n update.old }
    ensures { unhex (take (2 * n) (drop 7 line.now)) ≡ Some (take n update.new) }
{
    // `unwrap_or`, since with `unwrap` this takes seven times the time
    for i in 0..n {
        let high = digit_value(line[7 + 2 * i]).unwrap_or(0);
        let low = digit_value(line[8 + 2 * i]).unwrap_or(0);
        update[i] = 16 * high + low;
    }
}
