// Judging a waiting update: by its predecessors, its ancestors and its operation. And whether the predecessors of an update are all held.
#![tactic(auto)]

ghost use Rattle.std.specs.Prelude.{◌≡◌, ◌<◌, Bool, not, Some};
ghost use Rattle.update_format.specs.Update.{document_bounds};
ghost use Rattle.bytes_order.specs.Member.{all};
ghost use Rattle.update_format.specs.Update as U;
ghost use Rattle.update_format.specs.Decode.{ids_at, first_predecessor, decode};
ghost use Rattle.update_format.specs.ParseResult.{operation_at, value_of};
ghost use Rattle.rules.specs.CausalOrder.{before_or_after};
ghost use Rattle.rules.specs.Settle.{is_add, is_insert};
ghost use Rattle.ledger_state.specs.State.{places};
ghost use Rattle.ledger_state.specs.Asked.{TwoPlaces};
ghost use Rattle.ledger_state.specs.View.{book, store_of};
ghost use Rattle.ledger_state.specs.PlaceOrder.{order_at};
ghost use Rattle.ledger_judging.specs.Antichain.{clear_below, antichain_at};
ghost use Rattle.ledger_judging.specs.Judge.{nothing_gathered, gather_at, gather, names_ancestor, tested, valid, judge_ready, judge_gathered, judge_decoded, judge_at, all_held, ready_decoded, ready_at};

use bitset::Set;
use ledger_state::{Replica, Standing};
use rules::CausalOrder;
use update_format::numbers::{ID_LENGTH, TAG_LENGTH};
use update_format::{Operation, Parsed};

// What the predecessors of an update say: whether all are held, whether some is void, their places, and their ancestors.
// (Two flags, not one error: a predecessor that is not held does not end the search for one that is void, and one that is void outweighs it.)
#[derive(Clone, Copy)]
pub struct Gathered {
    pub ready: bool,
    pub void: bool,
    pub direct: Set,
    pub above: Set,
}

// How a waiting update is judged: it holds, with these ancestors; it fails; it goes on waiting.
#[derive(Clone, Copy)]
pub enum Judgement {
    Holds(Set),
    Fails,
    Waits,
}

// What is gathered with a predecessor at place j.
#[tactic(auto, using(bitset::specs::BitsLaws::included))]
fn gather_by(replica: &Replica, g: Gathered, j: usize) -> Gathered
    requires { j < places }
    ensures { result ≡ gather_at (book replica.now) g (Some j) }
{
    let p = &replica.ledger.places[j];
    match p.standing {
        Standing::Held => Gathered {
            direct: bitset::including(g.direct, j),
            above: bitset::join(g.above, p.ancestors),
            ..g
        },
        Standing::Waiting => Gathered { ready: false, ..g },
        Standing::Void => Gathered { void: true, ..g },
    }
}

// What the count predecessors of the update b say.
#[tactic(auto, using(ledger_state::proofs::FindLaws::found_below, crate::proofs::Runs::gather_next, crate::proofs::Runs::gather_ended))]
fn gather(replica: &Replica, b: &[u8], count: usize) -> Gathered
    ensures { result ≡ gather (book replica.now) nothing_gathered (ids_at b.now first_predecessor count) }
{
    let mut g = Gathered {
        ready: true,
        void: false,
        direct: 0,
        above: 0,
    };
    for k in 0..count {
        g = match replica.find(update_format::predecessor(b, k)) {
            Some(j) => gather_by(replica, g, j),
            None => Gathered { ready: false, ..g },
        };
    }
    g
}

// Whether place q is neither before nor after place k.
#[tactic(auto, unfolding(rules::specs::CausalOrder::before_or_after))]
fn unordered(replica: &Replica, q: usize, k: usize) -> bool
    requires { TwoPlaces q k }
    ensures { result ≡ not (before_or_after (order_at (book replica.now) q k)) }
{
    !matches!(
        replica.order(q, k),
        CausalOrder::Before | CausalOrder::After
    )
}

// Whether no place of the set below place k is before or after it.
fn clear_below(replica: &Replica, set: Set, k: usize) -> bool
    requires { k < places }
    ensures { result ≡ clear_below (book replica.now) set k }
{
    (0..k).all(|q| !bitset::has(set, q) || unordered(replica, q, k))
}

// Whether no place of the set is before or after another. Each pair is asked about once at most.
fn antichain(replica: &Replica, set: Set) -> bool
    ensures { result ≡ antichain_at (book replica.now) set }
{
    (0..replica.ledger.used).all(|k| !bitset::has(set, k) || clear_below(replica, set, k))
}

// The bytes of the place in the set `up` with this id.
#[tactic(auto, using(ledger_state::proofs::FindLaws::found_below), unfolding(crate::specs::Judge::names_ancestor, crate::specs::Judge::names_at))]
fn ancestor<'a>(replica: &Replica<'a>, up: Set, id: &[u8]) -> Option<&'a [u8]>
    ensures { (p : U.Operation → Bool) → tested p result ≡ names_ancestor (book replica.now) (store_of replica.now) p up id.now }
{
    let j = replica.find(id)?;
    if bitset::has(up, j) {
        Some(replica.update(j))
    } else {
        None
    }
}

// Whether an id is that of an Add of the tag in the set `up`.
fn names_add(replica: &Replica, up: Set, id: &[u8], tag: &[u8]) -> bool
    ensures { result ≡ names_ancestor (book replica.now) (store_of replica.now) (is_add tag.now) up id.now }
{
    ancestor(replica, up, id).is_some_and(|b| update_fields::adds(b, tag))
}

// Whether an id is that of an Insert in the set `up`.
fn names_insert(replica: &Replica, up: Set, id: &[u8]) -> bool
    ensures { result ≡ names_ancestor (book replica.now) (store_of replica.now) is_insert up id.now }
{
    ancestor(replica, up, id).is_some_and(update_fields::is_insert)
}

// Whether each of the count ids from byte at on is that of an Add of the tag in the set `up`.
fn names_adds(replica: &Replica, up: Set, b: &[u8], at: usize, count: usize, tag: &[u8]) -> bool
    ensures { result ≡ all (names_ancestor (book replica.now) (store_of replica.now) (is_add tag.now) up) (ids_at b.now at count) }
{
    (0..count).all(|k| names_add(replica, up, update_format::named(b, at, k), tag))
}

// Whether the operation is valid for the ancestors `up`.
#[tactic(auto, unfolding(crate::specs::Judge::valid))]
fn valid(replica: &Replica, up: Set, b: &[u8], operation: Operation) -> bool
    ensures { result ≡ valid (book replica.now) (store_of replica.now) up (operation_at b.now operation) }
{
    match operation {
        Operation::Add { .. } => true,
        Operation::Remove { tag, named, count } => names_adds(
            replica,
            up,
            b,
            named,
            count,
            update_format::slice_of(b, tag, TAG_LENGTH),
        ),
        Operation::Insert { anchor, .. } => {
            let a = update_format::slice_of(b, anchor, ID_LENGTH);
            bytes_order::same(a, &[0u8; ID_LENGTH]) || names_insert(replica, up, a)
        }
        Operation::Delete { deleted } => names_insert(
            replica,
            up,
            update_format::slice_of(b, deleted, ID_LENGTH),
        ),
    }
}

// The judgement of an update whose predecessors are all held.
#[tactic(auto, unfolding(crate::specs::Judge::judge_ready))]
fn judge_ready(
    replica: &Replica,
    b: &[u8],
    operation: Operation,
    direct: Set,
    above: Set,
) -> Judgement
    ensures { result ≡ judge_ready (book replica.now) (store_of replica.now) (operation_at b.now operation) direct above }
{
    let up = bitset::join(direct, above);
    if antichain(replica, direct) && valid(replica, up, b, operation) {
        Judgement::Holds(up)
    } else {
        Judgement::Fails
    }
}

// The judgement of an update, from what its predecessors say.
#[tactic(auto, unfolding(crate::specs::Judge::judge_gathered))]
fn judge_update(replica: &Replica, b: &[u8], u: Parsed) -> Judgement
    ensures { result ≡ judge_gathered (book replica.now) (store_of replica.now) (value_of b.now u).op (gather (book replica.now) nothing_gathered (value_of b.now u).preds) }
{
    let g = gather(replica, b, u.count);
    if g.void {
        Judgement::Fails
    } else if g.ready {
        judge_ready(replica, b, u.operation, g.direct, g.above)
    } else {
        Judgement::Waits
    }
}

// The judgement of the bytes b as an update; bytes that are none wait.
#[tactic(auto, unfolding(crate::specs::Judge::judge_decoded))]
pub fn judge_bytes(replica: &Replica, b: &[u8]) -> Judgement
    ensures { result ≡ judge_decoded (book replica.now) (store_of replica.now) (decode document_bounds b.now) }
{
    match update_parsing::read(b) {
        Ok(u) => judge_update(replica, b, u),
        Err(_) => Judgement::Waits,
    }
}

// The judgement of the update at place k.
#[tactic(auto, unfolding(crate::specs::Judge::judge_at))]
pub fn judge(replica: &Replica, k: usize) -> Judgement
    requires { k < places }
    ensures { result ≡ judge_at (book replica.now) (store_of replica.now) k }
{
    judge_bytes(replica, replica.update(k))
}

// Whether the predecessors of the update b are all held.
#[tactic(auto, unfolding(crate::specs::Judge::all_held))]
fn all_held(replica: &Replica, b: &[u8], u: Parsed) -> bool
    ensures { result ≡ all_held (gather (book replica.now) nothing_gathered (value_of b.now u).preds) }
{
    let g = gather(replica, b, u.count);
    !g.void && g.ready
}

// Whether the bytes b are an update whose predecessors are all held.
#[tactic(auto, unfolding(crate::specs::Judge::ready_decoded))]
fn bytes_ready(replica: &Replica, b: &[u8]) -> bool
    ensures { result ≡ ready_decoded (book replica.now) (decode document_bounds b.now) }
{
    match update_parsing::read(b) {
        Ok(u) => all_held(replica, b, u),
        Err(_) => false,
    }
}

// Whether the predecessors of the update at place k are all held.
#[tactic(auto, unfolding(crate::specs::Judge::ready_at))]
pub fn is_ready(replica: &Replica, k: usize) -> bool
    requires { k < places }
    ensures { result ≡ ready_at (book replica.now) (store_of replica.now) k }
{
    bytes_ready(replica, replica.update(k))
}
