// An operation that is to be written.
ghost use Rattle.std.specs.Prelude.{◌≡◌, false};
ghost use Rattle.write_operations.specs.Operations.{bad_named};

use update_format::{Id, Kind, Tag};

// The kind; the tag of an Add or a Remove, or the value of an Insert; the anchor of an Insert, or the id that a Delete deletes; the bytes
// of the ids that a Remove names, which row 8 lets through, whatever the kind. Of these a kind has only its own.
#[derive(Clone, Copy)]
pub struct Draft<'a> {
    pub kind: Kind,
    pub tag: Tag,
    pub id: Id,
    pub named: &'a [u8],
    pub ghost named_good: { bad_named named.now ≡ false },
}
