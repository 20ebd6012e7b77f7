// The marked authors.
ghost use Rattle.std.specs.Prelude.{◌≡◌, ◌&&◌, ◌||◌, eqb, ℕ, ◌<◌};
ghost use Rattle.bitset.specs.Bits.{has};
ghost use Rattle.ledger_relations.specs.PlaceTests.{author_at};
ghost use Rattle.ledger_state.specs.State.{places};
ghost use Rattle.ledger_state.specs.View.{book, store_of};
ghost use Rattle.report_parts.specs.PlaceParts.{evidence_at, marked_by};

use crate::Evidence;
use bitset::Set;
use ledger_state::Replica;

// Whether place k is such evidence.
fn is_evidence(replica: &Replica, evidence: Evidence, k: usize) -> bool
    requires { k < places }
    ensures { result ≡ evidence_at (book replica.now) (store_of replica.now) evidence k }
{
    match evidence {
        Evidence::Fork => ledger_relations::is_forked(replica, k),
        Evidence::Fault => ledger_relations::is_fault(replica, k),
    }
}

// The set with the author of place k, if the place is such evidence.
fn with_author(replica: &Replica, evidence: Evidence, authors: Set, k: usize) -> Set
    requires { k < places }
    ensures { (a : ℕ) → has result a ≡ has authors a || (eqb (author_at (book replica.now) (store_of replica.now) k) a && evidence_at (book replica.now) (store_of replica.now) evidence k) }
{
    if is_evidence(replica, evidence, k) {
        let author = update_fields::author_of(replica.update(k));
        bitset::including(authors, usize::from(author))
    } else {
        authors
    }
}

// The set of the authors that such evidence marks, bit a for author a.
pub fn marked(replica: &Replica, evidence: Evidence) -> Set
    ensures { (a : ℕ) → has result a ≡ marked_by (book replica.now) (store_of replica.now) evidence a }
{
    let mut authors: Set = 0;
    for k in 0..replica.ledger.used {
        authors = with_author(replica, evidence, authors, k);
    }
    authors
}
