// Writing a new update: its bytes, with the chosen predecessors.
#![tactic(auto)]

ghost use Rattle.std.specs.Prelude.{ℕ, ◌+◌, ◌*◌, ◌≤◌, map, length};
ghost use Rattle.update_format.specs.Update.{id_length, document_bounds, max_length, encode};
ghost use Rattle.update_format.specs.Slices.{joined, SizedIds};
ghost use Rattle.bytes_print.specs.Page.{Prints, Printed};
ghost use Rattle.write_operations.specs.Drafted.{drafted};
ghost use Rattle.ledger_state.specs.State.{place_at};
ghost use Rattle.ledger_state.specs.View.{book, store_of};
ghost use Rattle.write_layout.specs.Written.{written_at, IdsAt};

use bytes_print::Page;
use ledger_state::Replica;
use update_format::numbers::VERSION;
use write_operations::Draft;
use write_predecessors::chosen;

// The ids of the places.
fn put_ids(replica: &Replica, places: &[usize], page: &mut Page)
    requires { IdsAt places.now page.old.at }
    ensures prints { Printed page.old (joined (map (λ (k : ℕ). (place_at (book replica.now) k).id) places.now)) page.new }
    ensures small { page.new.at ≤ page.old.at + id_length * length places.now }
    ensures sized { SizedIds (map (λ (k : ℕ). (place_at (book replica.now) k).id) places.now) }
{
    for k in places {
        page.put(&replica.ledger.places[*k].id);
    }
}

// Prints the new update at the start of the page, at most 533 bytes; how long it is. Of the chosen places there are 8 at most, so `as` loses nothing.
pub fn compose(replica: &Replica, author: u8, draft: &Draft, page: &mut [u8]) -> usize
    ensures prints { Prints page.old 0 (encode (written_at (book replica.now) (store_of replica.now) author (drafted draft.now))) page.new result }
    ensures small { result ≤ max_length document_bounds }
    ensures sized { SizedIds (written_at (book replica.now) (store_of replica.now) author (drafted draft.now)).preds }
{
    let places = chosen(replica, author);
    let mut page = Page::new(page);
    page.put(&[VERSION, author, places.len() as u8]);
    put_ids(replica, places.as_slice(), &mut page);
    draft.print(&mut page);
    page.at
}
