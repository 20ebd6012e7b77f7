// The numbers of document 01, each named once; and the bounds of an update, which the terms of a ledger choose.
ghost use Rattle.std.specs.Prelude.{◌≡◌, ◌≤◌};
ghost use Rattle.update_format.specs.Update.{document_bounds, max_length, max_count};

use crate::{Bounds, Kind};

// Document 01's own bounds.
pub fn document_bounds() -> Bounds
    ensures { result ≡ document_bounds }
{
    Bounds {
        authors: AUTHORS,
        predecessors: usize::from(MAX_PREDECESSORS),
    }
}

// The longest update within the bounds: a Remove has one byte more than an Add, and as many predecessors and named ids as can be.
pub fn max_length(bounds: Bounds) -> usize
    requires { bounds.predecessors ≤ max_count }
    ensures { result ≡ max_length bounds }
{
    MIN_LENGTH + 1 + ID_LENGTH * bounds.predecessors + ID_LENGTH * usize::from(MAX_NAMED)
}

pub const VERSION: u8 = 1;

pub const MAX_AUTHOR: u8 = 15;

// How many authors there are: 0 to MAX_AUTHOR. Widened by `as`, here and in MAX_LENGTH: a constant calls no From.
pub const AUTHORS: usize = MAX_AUTHOR as usize + 1;

pub const MAX_PREDECESSORS: u8 = 8;

pub const MAX_NAMED: u8 = 8;

pub const MIN_LENGTH: usize = 20;

pub const MAX_LENGTH: usize = MIN_LENGTH
    + 1
    + ID_LENGTH * (MAX_PREDECESSORS as usize + MAX_NAMED as usize);

pub const ID_LENGTH: usize = 32;

pub const TAG_LENGTH: usize = 16;

// Where the predecessors begin.
pub const FIRST_PREDECESSOR: usize = 3;

// The kind bytes.
pub const ADD: u8 = Kind::Add as u8;

pub const REMOVE: u8 = Kind::Remove as u8;

pub const INSERT: u8 = Kind::Insert as u8;

pub const DELETE: u8 = Kind::Delete as u8;
