// A set of places as a run of 64-bit words, the lowest places first: place k is bit k % 64 of word k / 64.
#![tactic(auto)]

ghost use Rattle.std.specs.Prelude.{◌≡◌, ◌-◌, ◌≤◌, length};
ghost use Rattle.bitset.specs.Bits.{word_bits, has, including_below, join, within, count};
ghost use Rattle.bitset_words.specs.Run.{number, room, max_words, Rows, JoinsRows};

// Whether place k is in the set.
pub fn has(s: &[u64], k: usize) -> bool
    ensures { result ≡ has (number s.now) k }
{
    match s.get(k / bitset::WORD_BITS) {
        Some(w) => bitset::has(*w, k % bitset::WORD_BITS),
        None => false,
    }
}

// Adds place k; nothing where the run has no room for it.
pub fn include(s: &mut [u64], k: usize)
    ensures { number s.new ≡ including_below (room s.old) (number s.old) k }
{
    let at = k / bitset::WORD_BITS;
    if at < s.len() {
        s[at] = bitset::including(s[at], k % bitset::WORD_BITS);
    }
}

// Adds what is in t.
pub fn join(s: &mut [u64], t: &[u64])
    requires { length t.now ≤ length s.old }
    ensures { number s.new ≡ join (number s.old) (number t.now) }
{
    for (i, w) in t.iter().enumerate() {
        s[i] = bitset::join(s[i], *w);
    }
}

// Adds to the set of n words from word `to` on what is in that from word `from` on, where one slice has both.
pub fn join_rows(s: &mut [u64], to: usize, from: usize, n: usize)
    requires { Rows s.old to from n }
    ensures { JoinsRows s.old to from n s.new }
{
    for i in 0..n {
        s[to + i] = bitset::join(s[to + i], s[from + i]);
    }
}

// How many places are in the set.
pub fn count(s: &[u64]) -> usize
    requires { length s.now ≤ max_words }
    ensures { result ≡ count (number s.now) }
{
    s.iter().map(|w| bitset::count(*w)).sum()
}

// Whether every place of the set is below n.
pub fn within(s: &[u64], n: usize) -> bool
    ensures { result ≡ within (number s.now) n }
{
    let mut left = n;
    for w in s {
        if !bitset::within(*w, left) {
            return false;
        }
        left = left.saturating_sub(bitset::WORD_BITS);
    }
    true
}

// Takes every place out.
pub fn clear(s: &mut [u64])
    ensures { number s.new ≡ 0 }
{
    s.fill(0);
}
