// Reads one update: from its bytes to the offsets of its fields, or the refusal (rows 2 to 9 of document 01's table).
#![tactic(auto)]

ghost use Rattle.std.specs.Prelude.{◌≡◌, ◌≤◌};
ghost use Rattle.update_format.specs.Update.{document_bounds, max_count};
ghost use Rattle.update_format.specs.Decode.{decode};
ghost use Rattle.update_format.specs.ParseResult.{decoded_of, parse_of};

mod body;

use update_format::numbers::{MIN_LENGTH, VERSION, document_bounds, max_length};
use update_format::{Bounds, Malformed, Parsed};
use update_header::read_header;

// Reads an update of any length within the bounds: the offsets, or the first row that applies.
#[tactic(auto, unfolding(update_format::specs::ParseResult::parse_of, update_format::specs::Decode::decode, update_format::specs::Decode::row2, update_format::specs::Decode::row3, update_format::specs::Decode::row4, update_format::specs::Decode::row5))]
pub fn read_within(bounds: Bounds, s: &[u8]) -> Result<Parsed, Malformed>
    requires { bounds.predecessors ≤ max_count }
    ensures decoded { decoded_of s.now result ≡ decode bounds s.now }
    ensures offsets { result ≡ parse_of bounds s.now }
{
    if s.len() < MIN_LENGTH || max_length(bounds) < s.len() {
        return Err(Malformed::Length);
    }
    let header = read_header(s);
    if header.version != VERSION {
        return Err(Malformed::Version);
    }
    if bounds.authors <= usize::from(header.author) {
        return Err(Malformed::Author);
    }
    if bounds.predecessors < usize::from(header.count) {
        return Err(Malformed::Predecessors);
    }
    body::read(s, header)
}

// Reads an update of any length within document 01's bounds.
pub fn read(s: &[u8]) -> Result<Parsed, Malformed>
    ensures decoded { decoded_of s.now result ≡ decode document_bounds s.now }
    ensures offsets { result ≡ parse_of document_bounds s.now }
{
    read_within(document_bounds(), s)
}
