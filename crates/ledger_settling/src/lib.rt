// Settling by a worklist: the newest place is judged; of each place that is settled, the waiting places whose updates name it are judged, until no settled place is left
// whose successors were not. So the newest place is judged once, and any other at most once for each of its predecessors that is settled.
#![tactic(auto)]

ghost use Rattle.std.specs.Prelude.{◌≡◌, ◌<◌, length};
ghost use Rattle.update_format.specs.Update.{document_bounds};
ghost use Rattle.update_format.specs.Decode.{decode};
ghost use Rattle.ledger_state.specs.State.{place_at};
ghost use Rattle.ledger_state.specs.Asked.{TwoPlaces};
ghost use Rattle.ledger_state.specs.View.{book_of, book, store_of};
ghost use Rattle.ledger_settling.specs.Settle.{follows, waits_for, SettledFrom};
ghost use Rattle.ledger_settling.specs.Worklist.{progress_of, with_held, with_void, Judged, WaitsAt, NewestWaits, JudgesSuccessors, Empties};

mod settling;

use bitset::Set;
use ledger_judging::{Judgement, judge};
use ledger_lists::Places;
use ledger_state::{Ledger, Replica, Standing};
pub use settling::Settling;
use update_format::numbers::FIRST_PREDECESSOR;

// Whether the bytes are an update that names the id among its predecessors.
#[tactic(auto, unfolding(crate::specs::Settle::follows))]
fn follows(b: &[u8], id: &[u8]) -> bool
    ensures { result ≡ follows id.now (decode document_bounds b.now) }
{
    match update_parsing::read(b) {
        Ok(u) => update_fields::among(b, FIRST_PREDECESSOR, u.count, id),
        Err(_) => false,
    }
}

// Whether place k waits and its update names the id of place n.
#[tactic(auto, using(ledger_state::proofs::NumberLaws::standing_tests))]
fn waits_for(replica: &Replica, k: usize, n: usize) -> bool
    requires { TwoPlaces k n }
    ensures { result ≡ waits_for (book replica.now) (store_of replica.now) (place_at (book replica.now) n).id k }
{
    replica.has_standing(k, Standing::Waiting)
        && follows(replica.update(k), &replica.ledger.places[n].id)
}

impl Settling {
    // The waiting place k held, with these ancestors, and on the worklist.
    #[tactic(auto, using(crate::proofs::Judging::worklist_room))]
    fn with_held(mut self, k: usize, ancestors: Set) -> Settling
        requires { WaitsAt self k }
        ensures { progress_of result ≡ with_held (progress_of self) k ancestors }
    {
        self.ledger = self.ledger.with_standing(k, Standing::Held, ancestors);
        self.worklist.push(k);
        self.held += 1;
        self
    }

    // The waiting place k void, and on the worklist.
    #[tactic(auto, using(crate::proofs::Judging::worklist_room))]
    fn with_void(mut self, k: usize) -> Settling
        requires { WaitsAt self k }
        ensures { progress_of result ≡ with_void (progress_of self) k }
    {
        self.ledger = self.ledger.with_standing(k, Standing::Void, 0);
        self.worklist.push(k);
        self.void += 1;
        self
    }

    // The waiting place k as it is judged: on the worklist, if it is settled.
    fn judged(self, store: &[u8], k: usize) -> Settling
        requires { WaitsAt self k }
        ensures { Judged store.now k (progress_of self) (progress_of result) }
    {
        let replica = Replica {
            ledger: &self.ledger,
            store,
        };
        match judge(&replica, k) {
            Judgement::Holds(up) => self.with_held(k, up),
            Judgement::Fails => self.with_void(k),
            Judgement::Waits => self,
        }
    }

    // The successors of the place at index i of the worklist as they are judged. (Until the loop comes to a place, it is as it was when the loop began.)
    #[tactic(auto, using(crate::proofs::Loops::successors_done))]
    fn successors_judged(self, store: &[u8], i: usize) -> Settling
        requires { i < length self.worklist.items }
        ensures { JudgesSuccessors store.now i self result }
    {
        let ledger = self.ledger;
        let replica = Replica {
            ledger: &ledger,
            store,
        };
        let n = self.worklist.as_slice()[i];
        let mut current = self;
        for k in 0..ledger.used {
            if waits_for(&replica, k, n) {
                current = current.judged(store, k);
            }
        }
        current
    }

    // The successors of each place of the worklist as they are judged, until the worklist is at its end.
    #[tactic(auto, using(crate::proofs::Loops::worklist_begun, crate::proofs::Loops::worklist_onward, crate::proofs::Loops::worklist_done))]
    fn settle(mut self, store: &[u8]) -> Settling
        ensures { Empties store.now self result }
    {
        let mut i: usize = 0;
        // a while: the worklist grows as it is gone through
        while i < self.worklist.len() {
            self = self.successors_judged(store, i);
            i += 1;
        }
        self
    }
}

// Settles a ledger whose newest place, k, waits.
pub fn settle(ledger: Ledger, store: &[u8], k: usize) -> Settling
    requires { NewestWaits (book_of ledger) k }
    ensures { SettledFrom (book_of ledger) store.now result.held result.void (book_of result.ledger) }
{
    let begun = Settling {
        ledger,
        worklist: Places::new(),
        held: 0,
        void: 0,
    };
    begun.judged(store, k).settle(store)
}
