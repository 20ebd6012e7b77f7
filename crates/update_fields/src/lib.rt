// The fields of an update, read from its bytes.
#![tactic(auto)]

ghost use Rattle.std.specs.Prelude.{◌≡◌, ◌≤◌, ◌<◌, length};
ghost use Rattle.bytes_order.specs.Member.{member};
ghost use Rattle.update_format.specs.Update.{document_bounds, tag_length};
ghost use Rattle.update_format.specs.Decode.{ids_at, decode};
ghost use Rattle.rules.specs.Settle.{is_add, is_insert, names, deletes};
ghost use Rattle.update_fields.specs.Fields.{test_of, author_in, is_any_add, tag_in, value_in, anchor_in};

use update_format::numbers::{ID_LENGTH, TAG_LENGTH};
use update_format::{Operation, slice_of};

// The author.
#[tactic(auto, unfolding(crate::specs::Fields::author_in))]
pub fn author_of(b: &[u8]) -> u8
    ensures { (result ≡ author_in (decode document_bounds b.now)) × (result < document_bounds.authors) }
{
    match update_parsing::read(b) {
        Ok(u) => u.author,
        Err(_) => 0,
    }
}

// The tag of an Add.
#[tactic(auto, unfolding(crate::specs::Fields::tag_in, bytes_order::specs::Member::concat_map, rules::specs::Settle::tags_of))]
pub fn tag_of(b: &[u8]) -> &[u8]
    ensures { (result.now ≡ tag_in (decode document_bounds b.now)) × (length result.now ≤ tag_length) }
{
    match update_parsing::read(b).map(|u| u.operation) {
        Ok(Operation::Add { tag }) => slice_of(b, tag, TAG_LENGTH),
        _ => &[],
    }
}

// The value of an Insert.
#[tactic(auto, unfolding(crate::specs::Fields::value_in, bytes_order::specs::Member::concat_map, rules::specs::Settle::values_of))]
pub fn value_of(b: &[u8]) -> &[u8]
    ensures { (result.now ≡ value_in (decode document_bounds b.now)) × (length result.now ≤ tag_length) }
{
    match update_parsing::read(b).map(|u| u.operation) {
        Ok(Operation::Insert { value, .. }) => slice_of(b, value, TAG_LENGTH),
        _ => &[],
    }
}

// The anchor of an Insert.
#[tactic(auto, unfolding(crate::specs::Fields::anchor_in, crate::specs::Fields::anchor_of))]
pub fn anchor_of(b: &[u8]) -> &[u8]
    ensures { result.now ≡ anchor_in (decode document_bounds b.now) }
{
    match update_parsing::read(b).map(|u| u.operation) {
        Ok(Operation::Insert { anchor, .. }) => slice_of(b, anchor, ID_LENGTH),
        _ => &[],
    }
}

// Whether it is an Add.
#[tactic(auto, unfolding(crate::specs::Fields::test_of, crate::specs::Fields::is_any_add))]
pub fn is_add(b: &[u8]) -> bool
    ensures { result ≡ test_of is_any_add (decode document_bounds b.now) }
{
    matches!(
        update_parsing::read(b).map(|u| u.operation),
        Ok(Operation::Add { .. })
    )
}

// Whether it is an Insert.
#[tactic(auto, unfolding(crate::specs::Fields::test_of, rules::specs::Settle::is_insert))]
pub fn is_insert(b: &[u8]) -> bool
    ensures { result ≡ test_of is_insert (decode document_bounds b.now) }
{
    matches!(
        update_parsing::read(b).map(|u| u.operation),
        Ok(Operation::Insert { .. })
    )
}

// Whether it is an Add of the tag.
#[tactic(auto, unfolding(crate::specs::Fields::test_of, rules::specs::Settle::is_add))]
pub fn adds(b: &[u8], tag: &[u8]) -> bool
    ensures { result ≡ test_of (is_add tag.now) (decode document_bounds b.now) }
{
    match update_parsing::read(b).map(|u| u.operation) {
        Ok(Operation::Add { tag: at }) => bytes_order::same(tag, slice_of(b, at, TAG_LENGTH)),
        _ => false,
    }
}

// Whether an id is among the count ids from byte `at` on.
pub fn among(b: &[u8], at: usize, count: usize, id: &[u8]) -> bool
    ensures { result ≡ member id.now (ids_at b.now at count) }
{
    (0..count).any(|k| bytes_order::same(id, update_format::named(b, at, k)))
}

// Whether it is a Remove that names the id.
#[tactic(auto, unfolding(crate::specs::Fields::test_of, rules::specs::Settle::names))]
pub fn removes(b: &[u8], id: &[u8]) -> bool
    ensures { result ≡ test_of (names id.now) (decode document_bounds b.now) }
{
    match update_parsing::read(b).map(|u| u.operation) {
        Ok(Operation::Remove { named, count, .. }) => among(b, named, count, id),
        _ => false,
    }
}

// Whether it is a Delete of the id.
#[tactic(auto, unfolding(crate::specs::Fields::test_of, rules::specs::Settle::deletes))]
pub fn erases(b: &[u8], id: &[u8]) -> bool
    ensures { result ≡ test_of (deletes id.now) (decode document_bounds b.now) }
{
    match update_parsing::read(b).map(|u| u.operation) {
        Ok(Operation::Delete { deleted }) => bytes_order::same(id, slice_of(b, deleted, ID_LENGTH)),
        _ => false,
    }
}
