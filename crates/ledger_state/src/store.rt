// The lent store: place k's update from byte 533 × k on.
ghost use Rattle.std.specs.Prelude.{◌≡◌, ◌<◌};
ghost use Rattle.bytes_copy.specs.Overwritten.{overwritten};
ghost use Rattle.update_format.specs.Decode.{slice};
ghost use Rattle.ledger_state.specs.State.{places, document_terms, start_of};
ghost use Rattle.ledger_state.specs.Asked.{WritableAt};

use bytes_copy::copy;
use update_format::numbers::MAX_LENGTH;

// Writes one update into place k: "no other byte changes".
#[tactic(auto, using(bytes_copy::specs::OverwrittenLaws::put_back), unfolding(crate::specs::State::start_of))]
pub fn write_at(store: &mut [u8], k: usize, update: &[u8])
    requires { WritableAt store.old k update.now }
    ensures { store.new ≡ overwritten store.old (start_of document_terms k) update.now }
{
    let at = MAX_LENGTH * k;
    copy(&mut store[at..], update);
}

// The bytes of place k, of this length.
#[tactic(auto, unfolding(crate::specs::State::start_of))]
pub fn stored(store: &[u8], k: usize, len: usize) -> &[u8]
    requires { k < places }
    ensures { result.now ≡ slice store.now (start_of document_terms k) len }
{
    update_format::slice_of(store, MAX_LENGTH * k, len)
}
