// What held places do to a place of a ledger, the tests of a place that go by it, and whether a place is a fault.
#![tactic(auto)]

ghost use Rattle.std.specs.Prelude.{◌≡◌, ◌<◌};
ghost use Rattle.rules.specs.CausalOrder.{is_before};
ghost use Rattle.ledger_state.specs.State.{places, document_terms, place_at};
ghost use Rattle.ledger_state.specs.PlaceOrder.{order_at};
ghost use Rattle.ledger_state.specs.View.{place_of, book, store_of};
ghost use Rattle.ledger_state.specs.Asked.{TwoPlaces};
ghost use Rattle.ledger_relations.specs.PlaceTests.{head_at, forked_at, fault_at, present_at, shown_at};
ghost use Rattle.ledger_relations.specs.Effects.{forks, affects, held_affects, some_held, ranked_in};

use ledger_state::store::stored;
use ledger_state::{Place, Replica, Standing};
use rules::CausalOrder;
use update_fields::author_of;

// What a held place can do to another place: be after it; be a fork of it; remove it; delete it. The definitions and the theorems of specs/ are by it.
#[derive(Clone, Copy)]
pub enum Effect {
    Covers,
    Forks,
    Removes,
    Deletes,
}

// Whether place q covers place k: k is before it.
fn covers(replica: &Replica, k: usize, q: usize) -> bool
    requires { TwoPlaces k q }
    ensures { result ≡ is_before (order_at (book replica.now) k q) }
{
    replica.order(k, q) == CausalOrder::Before
}

// Whether the places are apart and of one author. In this order: two tests of a bit spare parsing both updates.
fn forks(replica: &Replica, k: usize, q: usize) -> bool
    requires { TwoPlaces k q }
    ensures { result ≡ forks document_terms (store_of replica.now) (place_at (book replica.now) k) k (place_at (book replica.now) q) q }
{
    replica.order(k, q) == CausalOrder::Apart
        && author_of(replica.update(k)) == author_of(replica.update(q))
}

// Whether place q does so to place k.
fn affects(replica: &Replica, effect: Effect, k: usize, q: usize) -> bool
    requires { TwoPlaces k q }
    ensures { result ≡ affects document_terms (store_of replica.now) effect (place_at (book replica.now) k) k (place_at (book replica.now) q) q }
{
    let id = &replica.ledger.places[k].id;
    match effect {
        Effect::Covers => covers(replica, k, q),
        Effect::Forks => forks(replica, k, q),
        Effect::Removes => update_fields::removes(replica.update(q), id),
        Effect::Deletes => update_fields::erases(replica.update(q), id),
    }
}

// Whether place q is held and does so to place k.
fn held_affects(replica: &Replica, effect: Effect, k: usize, q: usize) -> bool
    requires { TwoPlaces k q }
    ensures { result ≡ held_affects document_terms (store_of replica.now) effect (place_at (book replica.now) k) k (place_at (book replica.now) q) q }
{
    replica.has_standing(q, Standing::Held) && affects(replica, effect, k, q)
}

// Whether some held place does so to place k.
fn some_held(replica: &Replica, effect: Effect, k: usize) -> bool
    requires { k < places }
    ensures { result ≡ some_held (book replica.now) (store_of replica.now) effect k }
{
    (0..replica.ledger.used).any(|q| held_affects(replica, effect, k, q))
}

// Whether place k is a head.
pub fn is_head(replica: &Replica, k: usize) -> bool
    requires { k < places }
    ensures { result ≡ head_at (book replica.now) (store_of replica.now) k }
{
    replica.has_standing(k, Standing::Held) && !some_held(replica, Effect::Covers, k)
}

// Whether place k is one of two that are a fork.
pub fn is_forked(replica: &Replica, k: usize) -> bool
    requires { k < places }
    ensures { result ≡ forked_at (book replica.now) (store_of replica.now) k }
{
    replica.has_standing(k, Standing::Held) && some_held(replica, Effect::Forks, k)
}

// Whether place k is a fault: void while all its predecessors are held.
pub fn is_fault(replica: &Replica, k: usize) -> bool
    requires { k < places }
    ensures { result ≡ fault_at (book replica.now) (store_of replica.now) k }
{
    replica.has_standing(k, Standing::Void) && ledger_judging::is_ready(replica, k)
}

// Whether place k holds an Add that no held Remove names.
pub fn is_present(replica: &Replica, k: usize) -> bool
    requires { k < places }
    ensures { result ≡ present_at (book replica.now) (store_of replica.now) k }
{
    replica.has_standing(k, Standing::Held)
        && update_fields::is_add(replica.update(k))
        && !some_held(replica, Effect::Removes, k)
}

// Whether no held Delete names place k.
pub fn is_shown(replica: &Replica, k: usize) -> bool
    requires { k < places }
    ensures { result ≡ shown_at (book replica.now) (store_of replica.now) k }
{
    !some_held(replica, Effect::Deletes, k)
}

// Whether the place, k, holds a held Insert with n ancestors. Asked of a place by itself: of its ledger nothing is asked.
pub fn is_ranked(store: &[u8], n: usize, p: Place, k: usize) -> bool
    requires { k < places }
    ensures { result ≡ ranked_in document_terms store.now n (place_of p) k }
{
    p.standing == Standing::Held
        && bitset::count(p.ancestors) == n
        && update_fields::is_insert(stored(store, k, p.length))
}
