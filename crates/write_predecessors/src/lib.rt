// The predecessors of a new update, as places.
#![tactic(auto)]

ghost use Rattle.std.specs.Prelude.{◌≡◌, ◌≤◌, ◌<◌, Some, length};
ghost use Rattle.update_format.specs.Update.{document_bounds};
ghost use Rattle.bitset.specs.Below.{first_below};
ghost use Rattle.rules.specs.CausalOrder.{same_or_before};
ghost use Rattle.ledger_state.specs.View.{book, store_of};
ghost use Rattle.ledger_state.specs.Asked.{TwoPlaces};
ghost use Rattle.ledger_state.specs.PlaceOrder.{order_at};
ghost use Rattle.ledger_sorting.specs.PlaceLists.{Lists};
ghost use Rattle.write_predecessors.specs.Choose.{heads_of, above_at, most_for, chosen_places, HeadsFor, ManyHeads};

use ledger_sorting::{Key, Places, sorted};
use ledger_state::Replica;
use rules::CausalOrder;
use update_format::numbers::MAX_PREDECESSORS;
use write_highest::top;

// How many heads an update names at most. Widened by `as`: a constant calls no From.
const NAMED_HEADS: usize = MAX_PREDECESSORS as usize;

// The heads, ascending by id.
#[tactic(auto, using(crate::proofs::Choosing::kept_few, crate::proofs::Choosing::kept_yes, crate::proofs::Choosing::kept_no))]
fn heads(replica: &Replica) -> Places
    ensures { Lists result (heads_of (book replica.now) (store_of replica.now)) }
{
    let order = sorted::sorted(replica, Key::Id);
    let mut heads = Places::new();
    for k in order.as_slice() {
        if ledger_relations::is_head(replica, *k) {
            heads.push(*k);
        }
    }
    heads
}

// Whether place h is at or above place t: this is the same or before it.
#[tactic(auto, unfolding(rules::specs::CausalOrder::same_or_before))]
fn is_above(replica: &Replica, t: usize, h: usize) -> bool
    requires { TwoPlaces t h }
    ensures { result ≡ same_or_before (order_at (book replica.now) t h) }
{
    matches!(replica.order(t, h), CausalOrder::Same | CausalOrder::Before)
}

// The index of the first head at or above place t.
fn first_above(replica: &Replica, heads: &[usize], t: usize) -> Option<usize>
    requires { HeadsFor (book replica.now) (store_of replica.now) heads.now t }
    ensures { result ≡ first_below (length (heads_of (book replica.now) (store_of replica.now))) (above_at (book replica.now) (store_of replica.now) t) }
{
    heads.iter().position(|h| is_above(replica, t, *h))
}

// Leaves as many of the heads as an update names, where there are more, with the first at or above place t among them.
fn keep_above(replica: &Replica, heads: &mut Places, t: usize)
    requires { ManyHeads (book replica.now) (store_of replica.now) heads.old.items t }
    ensures most { heads.new.items ≡ most_for (book replica.now) (store_of replica.now) (Some t) }
    ensures few { length heads.new.items ≤ document_bounds.predecessors }
{
    if let Some(j) = first_above(replica, heads.as_slice(), t) {
        if NAMED_HEADS <= j {
            heads.set(NAMED_HEADS - 1, heads.as_slice()[j]);
        }
    }
    heads.truncate(NAMED_HEADS);
}

// The heads that a new update of the author names.
pub fn chosen(replica: &Replica, author: u8) -> Places
    ensures chosen { Lists result (chosen_places (book replica.now) (store_of replica.now) author) }
    ensures few { length result.items ≤ document_bounds.predecessors }
{
    let mut heads = heads(replica);
    if NAMED_HEADS < heads.len() {
        match top(replica, author) {
            Some(t) => keep_above(replica, &mut heads, t),
            None => heads.truncate(NAMED_HEADS),
        }
    }
    heads
}
