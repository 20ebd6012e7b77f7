// A list of places that is kept in the value itself and copied with it, as a ledger is.
#![tactic(auto)]

ghost use Rattle.std.specs.Prelude.{◌≡◌, ◌+◌, ◌-◌, ◌<◌, ◌≤◌, [], ◌∷◌, ◌++◌, length, take, insert, slice_set};
ghost use Rattle.ledger_state.specs.State.{places};

use ledger_state::PLACES;
use std::marker::Model;

// A list of places, no more of them than a ledger has.
#[derive(Clone, Copy)]
pub struct Places {
    count: usize,
    slots: [usize; PLACES],
}

impl Model for Places {
    ghost use Rattle.std.specs.Prelude.{◌≡◌, ◌≤◌, ◌++◌, length, take, drop};
    ghost use Rattle.std.proofs.Common.{arith, take-append-drop, length-take-le};
    ghost use Rattle.ledger_state.specs.State.{places};
    ghost use Rattle.ledger_lists.specs.PlaceItems.{PlaceItems};

    ghost Value = { PlaceItems };

    ghost view = { λ v. record { items = take v.count v.slots; spare = drop v.count v.slots } };

    ghost invariant = { λ v. (v.count ≤ places) × (length v.slots ≡ places) };

    ghost inverse = { λ v. record { count = length v.items; slots = v.items ++ v.spare } };

    ghost inverse_ok = { λ v h i. record {
      count = length-take-le v.count v.slots (omega (arith, h.0, h.1)) i;
      slots = take-append-drop v.count v.slots i;
    } };
}

impl Places {
    // No place.
    pub fn new() -> Places
        ensures { result.items ≡ [] }
    {
        Places {
            count: 0,
            slots: [0; PLACES],
        }
    }

    // How many places are listed.
    pub fn len(&self) -> usize
        ensures value { result ≡ length self.now.items }
        ensures fits { result ≤ places }
    {
        self.as_slice().len()
    }

    // The listed places.
    pub fn as_slice(&self) -> &[usize]
        ensures value { result.now ≡ self.now.items }
        ensures fits { length result.now ≤ places }
    {
        &self.slots[..self.count]
    }

    // Lists the place k after the others. There must be room.
    pub fn push(&mut self, k: usize)
        requires { length self.old.items < places }
        ensures items { self.new.items ≡ self.old.items ++ k ∷ [] }
        ensures len { length self.new.items ≡ length self.old.items + 1 }
    {
        let next = self.count;
        self.slots[next] = k;
        self.count = next + 1;
    }

    // Lists the place k before the index. There must be room.
    pub fn insert(&mut self, index: usize, k: usize)
        requires in_bounds { index ≤ length self.old.items }
        requires room { length self.old.items < places }
        ensures items { self.new.items ≡ insert self.old.items index k }
        ensures len { length self.new.items ≡ length self.old.items + 1 }
    {
        let count = self.count;
        self.slots.copy_within(index..count, index + 1);
        self.slots[index] = k;
        self.count = count + 1;
    }

    // Lists the place k in place of the one at the index.
    pub fn set(&mut self, index: usize, k: usize)
        requires { index < length self.old.items }
        ensures { self.new.items ≡ slice_set self.old.items index k }
    {
        let slots = &mut self.slots;
        slots[index] = k;
    }

    // Keeps the first `most` places at most.
    pub fn truncate(&mut self, most: usize)
        ensures items { self.new.items ≡ take most self.old.items }
        ensures len { length self.new.items + (length self.old.items - most) ≡ length self.old.items }
    {
        if most < self.count {
            self.count = most;
        }
    }
}
