// The words of a line, and the numbers that they spell.

// Whether a byte stands between words.
pub fn is_space(b: &u8) -> bool {
    *b == b' '
}

// The k-th of the parts that x separates; no bytes past the last.
pub fn field(s: &[u8], k: usize, x: u8) -> &[u8] {
    s.split(|b| *b == x).nth(k).unwrap_or(&[])
}

// What comes after the first x.
pub fn after(s: &[u8], x: u8) -> &[u8] {
    match s.iter().position(|b| *b == x) {
        Some(at) => &s[at + 1..],
        None => &[],
    }
}

// The k-th word of a line.
pub fn word(line: &[u8], k: usize) -> &[u8] {
    field(line, k, b' ')
}

// A byte; 0 stands for a missing one.
pub fn byte(s: &[u8], at: usize) -> u8 {
    s.get(at).copied().unwrap_or(0)
}

// The number that a word spells, if it spells one.
pub fn number(s: &[u8]) -> Option<usize> {
    if s.is_empty() {
        return None;
    }
    let mut n: usize = 0;
    for b in s {
        if !b.is_ascii_digit() {
            return None;
        }
        n = n.checked_mul(10)?.checked_add(usize::from(*b - b'0'))?;
    }
    Some(n)
}
