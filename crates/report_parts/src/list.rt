// The entries of the list in their order.
ghost use Rattle.std.specs.Prelude.{◌≡◌, List, ℕ, ◌+◌, ◌≤◌, length};
ghost use Rattle.bytes_order.specs.Member.{keep};
ghost use Rattle.ledger_state.specs.State.{places};
ghost use Rattle.ledger_state.specs.View.{book, store_of};
ghost use Rattle.report_parts.specs.PlaceParts.{after, put_entry, put_all, entries_of};
ghost use Rattle.ledger_sorting.specs.PlaceLists.{ins, PlaceList, Lists, RoomFor, InOrder};
ghost use Rattle.report_parts.specs.Ranked.{ranked_at, PlaceAmong, RankRoom};

use ledger_sorting::Places;
use ledger_state::{PLACES, Replica};
use update_format::numbers::ID_LENGTH;

// The index after the first entry with this id; past the end where there is none.
fn index_after(replica: &Replica, entries: &[usize], id: &[u8]) -> usize
    requires { PlaceList entries.now }
    ensures { (result ≤ length entries.now) × ((s : List ℕ) (k : ℕ) → ins result k entries.now ≡ after (book replica.now) s id.now k entries.now) }
{
    entries
        .iter()
        .position(|e| bytes_order::same(&replica.ledger.places[*e].id, id))
        .map_or(entries.len(), |i| i + 1)
}

// The index where place k is put.
fn index_of(replica: &Replica, entries: &[usize], k: usize) -> usize
    requires { PlaceAmong entries.now k }
    ensures { (result ≤ length entries.now) × (ins result k entries.now ≡ put_entry (book replica.now) (store_of replica.now) k entries.now) }
{
    let anchor = update_fields::anchor_of(replica.update(k));
    if bytes_order::same(anchor, &[0u8; ID_LENGTH]) {
        return 0;
    }
    index_after(replica, entries, anchor)
}

// Puts place k among the entries.
fn put(replica: &Replica, entries: &mut Places, k: usize)
    requires { RoomFor entries.old k }
    ensures { Lists entries.new (put_entry (book replica.now) (store_of replica.now) k entries.old.items) × (length entries.new.items ≡ length entries.old.items + 1) }
{
    let at = index_of(replica, entries.as_slice(), k);
    entries.insert(at, k);
}

// Puts those of rank n among the entries, in order.
fn put_rank(replica: &Replica, order: &[usize], n: usize, entries: &mut Places)
    requires { RankRoom (book replica.now) (store_of replica.now) order.now n entries.old }
    ensures { Lists entries.new (put_all (book replica.now) (store_of replica.now) entries.old.items (keep (ranked_at (book replica.now) (store_of replica.now) n) order.now)) × (length entries.new.items ≡ length entries.old.items + length (keep (ranked_at (book replica.now) (store_of replica.now) n) order.now)) }
{
    for k in order {
        if ledger_relations::is_ranked(replica.store, n, replica.ledger.places[*k], *k) {
            put(replica, entries, *k);
        }
    }
}

// The held Inserts, of lower rank first, each put among those before it. A rank counts ancestors, so it is below PLACES.
pub fn entries(replica: &Replica, order: &[usize]) -> Places
    requires { InOrder (book replica.now) (store_of replica.now) order.now }
    ensures { Lists result (entries_of (book replica.now) (store_of replica.now)) }
{
    let mut all = Places::new();
    for n in 0..PLACES {
        put_rank(replica, order, n, &mut all);
    }
    all
}
