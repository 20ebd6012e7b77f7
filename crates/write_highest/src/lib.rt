// The author's highest held place.
#![tactic(auto)]

ghost use Rattle.std.specs.Prelude.{◌≡◌, ◌+◌, ◌<◌};
ghost use Rattle.ledger_state.specs.State.{places};
ghost use Rattle.ledger_state.specs.View.{book, store_of};
ghost use Rattle.ledger_state.specs.Asked.{TwoPlaces};
ghost use Rattle.write_highest.specs.Top.{own_at, higher, top_below, TopSoFar};

use ledger_state::{Replica, Standing};

// Whether place k is held and the author's.
fn is_own(replica: &Replica, author: u8, k: usize) -> bool
    requires { k < places }
    ensures { result ≡ own_at (book replica.now) (store_of replica.now) author k }
{
    replica.has_standing(k, Standing::Held) && update_fields::author_of(replica.update(k)) == author
}

// Whether place k is of higher rank than place j, or of the same and of larger id.
fn is_higher(replica: &Replica, k: usize, j: usize) -> bool
    requires { TwoPlaces k j }
    ensures { result ≡ higher (book replica.now) (store_of replica.now) k j }
{
    let p = replica.ledger.places[k];
    let q = replica.ledger.places[j];
    bitset::count(q.ancestors)
        .cmp(&bitset::count(p.ancestors))
        .then(q.id.cmp(&p.id))
        .is_lt()
}

// The author's highest with place k, from the highest below it.
fn top_with(replica: &Replica, author: u8, top: Option<usize>, k: usize) -> Option<usize>
    requires { TopSoFar (book replica.now) (store_of replica.now) author k top }
    ensures { result ≡ top_below (book replica.now) (store_of replica.now) author (k + 1) }
{
    if !is_own(replica, author, k) {
        return top;
    }
    if let Some(j) = top {
        if !is_higher(replica, k, j) {
            return top;
        }
    }
    Some(k)
}

// The author's held place of highest rank (on a tie, larger id).
pub fn top(replica: &Replica, author: u8) -> Option<usize>
    ensures { result ≡ top_below (book replica.now) (store_of replica.now) author (book replica.now).used }
{
    let mut highest = None;
    for k in 0..replica.ledger.used {
        highest = top_with(replica, author, highest, k);
    }
    highest
}
