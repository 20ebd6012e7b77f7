// Reading a replica: finding an id among the taken places, the bytes and the standing of a place, and the causal order of two.
ghost use Rattle.std.specs.Prelude.{◌≡◌, ◌<◌};
ghost use Rattle.ledger_state.specs.State.{places, place_at, find_in, stored_at};
ghost use Rattle.ledger_state.specs.Asked.{TwoPlaces};
ghost use Rattle.ledger_state.specs.Number.{has_standing};
ghost use Rattle.ledger_state.specs.PlaceOrder.{order_at};
ghost use Rattle.ledger_state.specs.View.{book, store_of};

use crate::places::causal_order;
use crate::store::stored;
use crate::{Replica, Standing};
use rules::CausalOrder;

impl<'a> Replica<'a> {
    // The first taken place with this id.
    pub fn find(&self, id: &[u8]) -> Option<usize>
        ensures { result ≡ find_in (book self.now) id.now }
    {
        (0..self.ledger.used).find(|k| bytes_order::same(&self.ledger.places[*k].id, id))
    }

    // The bytes of the update at place k.
    pub fn update(&self, k: usize) -> &'a [u8]
        requires { k < places }
        ensures { result.now ≡ stored_at (book self.now) (store_of self.now) k }
    {
        stored(self.store, k, self.ledger.places[k].length)
    }

    // Whether place k has this standing.
    #[tactic(auto, using(crate::proofs::NumberLaws::eq_standing))]
    pub fn has_standing(&self, k: usize, standing: Standing) -> bool
        requires { k < places }
        ensures { result ≡ has_standing standing (place_at (book self.now) k).standing }
    {
        self.ledger.places[k].standing == standing
    }

    // How place k stands to place q.
    pub fn order(&self, k: usize, q: usize) -> CausalOrder
        requires { TwoPlaces k q }
        ensures { result ≡ order_at (book self.now) k q }
    {
        causal_order(self.ledger.places[k], k, self.ledger.places[q], q)
    }
}
