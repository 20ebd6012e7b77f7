// Ascending lists of places.
ghost use Rattle.std.specs.Prelude.{◌≡◌, true, IfSome, IfNone, cond, ◌+◌, ◌≤◌, ◌<◌, length};
ghost use Rattle.bytes_order.specs.Compare.{order_of};
ghost use Rattle.bytes_order.specs.Sort.{insert};
ghost use Rattle.update_format.specs.Update.{document_bounds};
ghost use Rattle.update_format.specs.Decode.{decode};
ghost use Rattle.rules.specs.SetEntry.{entry_key};
ghost use Rattle.update_fields.specs.Fields.{test_of, is_any_add, set_entry_in};
ghost use Rattle.ledger_state.specs.State.{places};
ghost use Rattle.ledger_state.specs.View.{book, store_of};
ghost use Rattle.ledger_sorting.specs.PlaceLists.{ins, Lists, TwoKeys, key_of, candidate, KeyedList, KeyedRoomFor, KeyedRoomIn, sorted_by};

use crate::{Key, Places};
use ledger_state::Replica;
use std::cmp::Ordering;
use update_fields::{author_of, tag_of};

// How the set entry of the one Add stands to that of the other: by tag, then by author.
fn compare_entries(own: &[u8], other: &[u8]) -> Ordering
    requires own_adds { test_of is_any_add (decode document_bounds own.now) ≡ true }
    requires other_adds { test_of is_any_add (decode document_bounds other.now) ≡ true }
    ensures { result ≡ order_of (entry_key (set_entry_in (decode document_bounds own.now))) (entry_key (set_entry_in (decode document_bounds other.now))) }
{
    tag_of(own)
        .cmp(tag_of(other))
        .then_with(|| author_of(own).cmp(&author_of(other)))
}

// How the key of place j stands to that of place k.
fn compare(replica: &Replica, key: Key, j: usize, k: usize) -> Ordering
    requires { TwoKeys (book replica.now) (store_of replica.now) key j k }
    ensures { result ≡ order_of (key_of (book replica.now) (store_of replica.now) key j) (key_of (book replica.now) (store_of replica.now) key k) }
{
    match key {
        Key::Id => replica.ledger.places[j]
            .id
            .cmp(&replica.ledger.places[k].id),
        Key::SetEntry => compare_entries(replica.update(j), replica.update(k)),
    }
}

// The index at which place j goes into the list, unless its key is there.
fn index_for(replica: &Replica, key: Key, places: &[usize], j: usize) -> Option<usize>
    requires { KeyedList (book replica.now) (store_of replica.now) key places.now j }
    ensures within { IfSome result (λ i. i ≤ length places.now) }
    ensures new { IfSome result (λ i. ins i j places.now ≡ insert (key_of (book replica.now) (store_of replica.now) key) j places.now) }
    ensures listed { IfNone result (places.now ≡ insert (key_of (book replica.now) (store_of replica.now) key) j places.now) }
{
    for (i, k) in places.iter().enumerate() {
        match compare(replica, key, j, *k) {
            Ordering::Less => return Some(i),
            Ordering::Equal => return None,
            Ordering::Greater => {}
        }
    }
    Some(places.len())
}

// Puts place j into the list, unless its key is there.
fn insert(replica: &Replica, key: Key, places: &mut Places, j: usize)
    requires { KeyedRoomFor (book replica.now) (store_of replica.now) key places.old j }
    ensures { Lists places.new (insert (key_of (book replica.now) (store_of replica.now) key) j places.old.items) × (length places.new.items ≤ length places.old.items + 1) }
{
    if let Some(i) = index_for(replica, key, places.as_slice(), j) {
        places.insert(i, j);
    }
}

// Whether place k is listed.
fn candidate(replica: &Replica, key: Key, k: usize) -> bool
    requires { k < places }
    ensures { result ≡ candidate (book replica.now) (store_of replica.now) key k }
{
    match key {
        Key::Id => true,
        Key::SetEntry => ledger_relations::is_present(replica, k),
    }
}

// Puts place k into the list, if it is listed.
fn insert_listed(replica: &Replica, key: Key, places: &mut Places, k: usize)
    requires { KeyedRoomIn (book replica.now) (store_of replica.now) key places.old k }
    ensures { Lists places.new (cond (candidate (book replica.now) (store_of replica.now) key k) (insert (key_of (book replica.now) (store_of replica.now) key) k places.old.items) places.old.items) × (length places.new.items ≤ length places.old.items + 1) }
{
    if candidate(replica, key, k) {
        insert(replica, key, places, k);
    }
}

// The listed places, ascending by key, of each key one.
pub fn sorted(replica: &Replica, key: Key) -> Places
    ensures { Lists result (sorted_by (book replica.now) (store_of replica.now) key) }
{
    let mut places = Places::new();
    for k in (0..replica.ledger.used).rev() {
        insert_listed(replica, key, &mut places, k);
    }
    places
}
