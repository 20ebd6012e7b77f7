// Tags that say hours within limits (document 02, E12, which calls them hours tags): read from their bytes.
#![tactic(auto)]

ghost use Rattle.std.specs.Prelude.{◌≡◌, length};
ghost use Rattle.update_format.specs.Update.{tag_length};
ghost use Rattle.hours_tags.specs.Hours.{limits_in, bounded, read_tag};

use bytes_pairs::pair_at;
use update_format::numbers::TAG_LENGTH;

// Byte 0 of an hours tag.
const HOURS_MARK: u8 = 72;

// The last minute of the week, from 0 on: no start is later.
const LAST_START: u16 = 10079;

const SHORTEST_RUN: u16 = 1;

const LONGEST_RUN: u16 = 1440;

// What an hours tag says: the pond, a byte that is kept as the other numbers are, and in minutes of the week when a run starts at the earliest and at the latest, and how
// long it is at least and at most.
#[derive(Clone, Copy)]
pub struct Limits {
    pub pond: u16,
    pub earliest: u16,
    pub latest: u16,
    pub shortest: u16,
    pub longest: u16,
}

// Whether the numbers are those of an hours tag.
#[tactic(auto, unfolding(crate::specs::Hours::bounded))]
fn bounded(h: Limits) -> bool
    ensures { result ≡ bounded h }
{
    (h.earliest..=LAST_START).contains(&h.latest)
        && (SHORTEST_RUN..=h.longest).contains(&h.shortest)
        && h.longest <= LONGEST_RUN
}

// The numbers of a tag's bytes, whatever they are.
fn limits_in(tag: &[u8]) -> Limits
    requires { length tag.now ≡ tag_length }
    ensures { result ≡ limits_in tag.now }
{
    Limits {
        pond: u16::from(tag[1]),
        earliest: pair_at(tag, 2),
        latest: pair_at(tag, 4),
        shortest: pair_at(tag, 6),
        longest: pair_at(tag, 8),
    }
}

// What a tag says, if it is an hours tag; any other tag is plain.
#[tactic(auto, unfolding(crate::specs::Hours::read_tag))]
pub fn read(tag: &[u8]) -> Option<Limits>
    ensures { result ≡ read_tag tag.now }
{
    if tag.len() != TAG_LENGTH || tag[0] != HOURS_MARK {
        return None;
    }
    let h = limits_in(tag);
    bounded(h).then_some(h)
}
