// A set of places as one 64-bit word, bit k for place k.
#![tactic(auto)]

ghost use Rattle.std.specs.Prelude.{◌≡◌};
ghost use Rattle.bitset.specs.Bits.{word_bits, has, including_below, join, within, count};

// A set of places.
pub type Set = u64;

// How many places a set has room for.
pub const WORD_BITS: usize = 64;

// Whether place k is in the set.
pub fn has(w: Set, k: usize) -> bool
    ensures { result ≡ has w k }
{
    k < WORD_BITS && (w >> k) & 1 == 1
}

// The set with place k added; unchanged where a word has no room for it.
pub fn including(w: Set, k: usize) -> Set
    ensures { result ≡ including_below word_bits w k }
{
    if k < WORD_BITS { w | (1 << k) } else { w }
}

// What is in either set.
#[tactic(auto, unfolding(crate::specs::Bits::join))]
pub fn join(v: Set, w: Set) -> Set
    ensures { result ≡ join v w }
{
    v | w
}

// Whether every place of the set is below n.
pub fn within(w: Set, n: usize) -> bool
    ensures { result ≡ within w n }
{
    n >= WORD_BITS || w >> n == 0
}

// How many places are in the set.
#[tactic(auto, unfolding(crate::specs::Bits::count))]
pub fn count(w: Set) -> usize
    ensures { result ≡ count w }
{
    w.count_ones() as usize
}
