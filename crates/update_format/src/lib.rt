// One update: the offsets of its fields in the bytes, or the refusal (rows 2 to 9 of document 01's table), and the parts of the bytes
// that the offsets name.
#![tactic(auto)]

ghost use Rattle.std.specs.Prelude.{◌≡◌, ◌≤◌};
ghost use Rattle.update_format.specs.Decode.{farthest_body};
ghost use Rattle.update_format.specs.Kinds.{offsets_by};
ghost use Rattle.update_format.specs.ParseResult.{malformed_number, kind_refused};

mod ids;
mod kind;
pub mod numbers;

pub use ids::{ascends, named, predecessor, slice_of};
pub use kind::{Kind, UnknownKind};
use numbers::{ID_LENGTH, TAG_LENGTH};

// An update's id.
pub type Id = [u8; ID_LENGTH];

// A tag, or the value of an Insert.
pub type Tag = [u8; TAG_LENGTH];

// What the terms of a ledger choose of an update's layout: how many authors there are, numbered from 0, and how many predecessors an update names at most.
#[derive(Clone, Copy, PartialEq, Eq)]
pub struct Bounds {
    pub authors: usize,
    pub predecessors: usize,
}

// The offsets of an operation's fields.
#[derive(Clone, Copy, PartialEq, Eq)]
pub enum Operation {
    Add {
        tag: usize,
    },
    Remove {
        tag: usize,
        named: usize,
        count: usize,
    },
    Insert {
        anchor: usize,
        value: usize,
    },
    Delete {
        deleted: usize,
    },
}

impl Operation {
    // The offsets of the fields of an operation of a kind: its own bytes begin at `body`, and a Remove names so many ids.
    pub fn laid_out(kind: Kind, body: usize, named: usize) -> Operation
        requires { body ≤ farthest_body }
        ensures { result ≡ offsets_by kind body named }
    {
        match kind {
            Kind::Add => Operation::Add { tag: body },
            Kind::Remove => Operation::Remove {
                tag: body,
                named: body + TAG_LENGTH + 1,
                count: named,
            },
            Kind::Insert => Operation::Insert {
                anchor: body,
                value: body + ID_LENGTH,
            },
            Kind::Delete => Operation::Delete { deleted: body },
        }
    }
}

// An update's author, the count of its predecessors, which stand from byte 3 on, and its operation.
#[derive(Clone, Copy, PartialEq, Eq)]
pub struct Parsed {
    pub author: u8,
    pub count: usize,
    pub operation: Operation,
}

// Why bytes are no update: rows 2 to 9.
#[derive(Clone, Copy, PartialEq, Eq)]
pub enum Malformed {
    Length = 2,
    Version = 3,
    Author = 4,
    Predecessors = 5,
    Truncated = 6,
    Kind = 7,
    Layout = 8,
    Unordered = 9,
}

impl Malformed {
    // Document 01's number.
    pub fn number(self) -> u8
        ensures { result ≡ malformed_number self }
    {
        self as u8
    }
}

// A byte that is no kind's: row 7.
impl From<UnknownKind> for Malformed {
    ghost from_gives = { λ _ m. m ≡ kind_refused };

    fn from(_: UnknownKind) -> Malformed {
        Malformed::Kind
    }
}
