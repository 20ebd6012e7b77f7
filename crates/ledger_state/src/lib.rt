// The bookkeeping of a ledger: places, standings and ancestor words, by value; and the lent store.
#![tactic(auto)]

pub mod places;
mod reading;
mod replica;
pub mod store;

ghost use Rattle.std.specs.Prelude.{◌≡◌};
ghost use Rattle.ledger_state.specs.View.{fresh_ledger};
ghost use Rattle.ledger_state.specs.Methods.{TakesPlace, ChangesStanding};

use bitset::Set;
pub use replica::Replica;
pub use rules::Standing;
use update_format::Id;
use update_format::numbers::{ID_LENGTH, MAX_LENGTH};

// How many places a ledger has.
pub const PLACES: usize = 64;

// How many bytes a store has.
pub const STORE_LENGTH: usize = PLACES * MAX_LENGTH;

// One place: its update's id, length, ancestors (bit k for place k) and standing. The update's bytes are in the store.
#[derive(Clone, Copy)]
pub struct Place {
    pub id: Id,
    pub length: usize,
    pub ancestors: Set,
    pub standing: Standing,
}

// The places below `used` are taken.
#[derive(Clone, Copy)]
pub struct Ledger {
    pub used: usize,
    pub places: [Place; PLACES],
}

// A ledger with no place taken.
#[tactic(auto, unfolding(crate::specs::View::fresh_ledger))]
pub fn fresh() -> Ledger
    ensures { result ≡ fresh_ledger }
{
    let free = Place {
        id: [0u8; ID_LENGTH],
        length: 0,
        ancestors: 0,
        standing: Standing::Held,
    };
    Ledger {
        used: 0,
        places: [free; PLACES],
    }
}

impl Ledger {
    // The next place is taken, by an update that waits. Where none is free, nothing changes.
    pub fn taken(mut self, id: Id, length: usize) -> Ledger
        ensures { TakesPlace self id length result }
    {
        let next = self.used;
        if PLACES <= next {
            return self;
        }
        self.places[next] = Place {
            id,
            length,
            ancestors: 0,
            standing: Standing::Waiting,
        };
        self.used = next + 1;
        self
    }

    // The standing of place k is changed, and its ancestors with it. Where there is no place k, nothing changes.
    pub fn with_standing(mut self, k: usize, standing: Standing, ancestors: Set) -> Ledger
        ensures { ChangesStanding self k standing ancestors result }
    {
        if PLACES <= k {
            return self;
        }
        self.places[k] = Place {
            ancestors,
            standing,
            ..self.places[k]
        };
        self
    }
}
