// The operation of an update, from its kind byte on: rows 6 to 9.
ghost use Rattle.std.specs.Prelude.{◌≡◌, not};
ghost use Rattle.update_format.specs.Decode.{row8, row9};
ghost use Rattle.update_format.specs.BodyBounds.{AtBody, AtCount, OffsetsRead};
ghost use Rattle.update_format.specs.ParseResult.{operation_parse};
ghost use Rattle.update_header.specs.Header.{AtKind};

use update_format::numbers::{FIRST_PREDECESSOR, ID_LENGTH, MAX_NAMED, TAG_LENGTH};
use update_format::{Kind, Malformed, Operation, Parsed, ascends};
use update_header::Header;

// Whether a Remove's count byte is missing or too large, or its named ids do not end with the bytes.
#[tactic(auto, unfolding(update_format::specs::Decode::row8, update_format::specs::Decode::length_of))]
fn wrong_remove(s: &[u8], at: usize, named: u8) -> bool
    requires { AtCount s.now at named }
    ensures { result ≡ row8 s.now }
{
    s.len() <= at || MAX_NAMED < named || s.len() != at + 1 + ID_LENGTH * usize::from(named)
}

// Whether the length is not what kind and counts give.
#[tactic(auto, unfolding(update_format::specs::Decode::row8, update_format::specs::Decode::length_of))]
fn wrong_layout(s: &[u8], header: Header, kind: Kind) -> bool
    requires { AtBody s.now kind header.body header.named }
    ensures { result ≡ row8 s.now }
{
    match kind {
        Kind::Add => s.len() != header.body + TAG_LENGTH,
        Kind::Remove => wrong_remove(s, header.body + TAG_LENGTH, header.named),
        Kind::Insert => s.len() != header.body + ID_LENGTH + TAG_LENGTH,
        Kind::Delete => s.len() != header.body + ID_LENGTH,
    }
}

// Whether the predecessors and a Remove's named ids are strictly ascending.
#[tactic(auto, unfolding(update_format::specs::ParseResult::offsets_of, update_format::specs::Decode::row9, update_format::specs::Decode::named_of))]
fn ordered(s: &[u8], count: usize, operation: Operation) -> bool
    requires { OffsetsRead s.now count operation }
    ensures { not result ≡ row9 s.now }
{
    if !ascends(s, FIRST_PREDECESSOR, count) {
        return false;
    }
    match operation {
        Operation::Remove { named, count, .. } => ascends(s, named, count),
        _ => true,
    }
}

// Rows 6 to 9, then the offsets.
#[tactic(auto, using(update_format::specs::KindLaws::row7_kind, update_format::specs::KindLaws::offsets_kind), unfolding(update_format::specs::ParseResult::operation_parse, update_format::specs::Decode::row6, update_format::specs::ParseResult::parsed_of))]
pub fn read(s: &[u8], header: Header) -> Result<Parsed, Malformed>
    requires { AtKind s.now header }
    ensures { result ≡ operation_parse s.now }
{
    if s.len() < header.body {
        return Err(Malformed::Truncated);
    }
    let kind = Kind::try_from(header.kind)?;
    if wrong_layout(s, header, kind) {
        return Err(Malformed::Layout);
    }
    let count = usize::from(header.count);
    let operation = Operation::laid_out(kind, header.body, usize::from(header.named));
    if !ordered(s, count, operation) {
        return Err(Malformed::Unordered);
    }
    Ok(Parsed {
        author: header.author,
        count,
        operation,
    })
}
