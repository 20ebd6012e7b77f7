// The four kinds of operation, and the byte of each.
ghost use Rattle.std.specs.Prelude.{◌≡◌};
ghost use Rattle.update_format.specs.Kinds.{kind_byte, Decodes};

use crate::numbers::{ADD, DELETE, INSERT, REMOVE};

// The kind of an operation.
#[derive(Clone, Copy, PartialEq, Eq)]
pub enum Kind {
    Add = 1,
    Remove = 2,
    Insert = 3,
    Delete = 4,
}

// A byte that is no kind's.
#[derive(Clone, Copy, PartialEq, Eq)]
pub struct UnknownKind(pub u8);

// The byte of a kind.
impl From<Kind> for u8 {
    ghost from_gives = { λ kind byte. byte ≡ kind_byte kind };

    fn from(kind: Kind) -> u8 {
        kind as u8
    }
}

// The kind that a byte is of, if it is one's.
impl TryFrom<u8> for Kind {
    type Error = UnknownKind;

    ghost try_from_gives = { Decodes };

    fn try_from(byte: u8) -> Result<Self, UnknownKind> {
        match byte {
            ADD => Ok(Kind::Add),
            REMOVE => Ok(Kind::Remove),
            INSERT => Ok(Kind::Insert),
            DELETE => Ok(Kind::Delete),
            _ => Err(UnknownKind(byte)),
        }
    }
}
