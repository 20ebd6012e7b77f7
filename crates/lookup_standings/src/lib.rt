// Looking ids up in a ledger to which row 1 does not apply.
#![tactic(auto)]

ghost use Rattle.std.specs.Prelude.{◌≡◌, ◌≤◌, true, length};
ghost use Rattle.update_format.specs.Decode.{id_count};
ghost use Rattle.ledger_state.specs.Row1.{sound};
ghost use Rattle.ledger_state.specs.View.{place_of, book, store_of};
ghost use Rattle.lookup_standings.specs.Lookup.{looked_up, LookupRow};
ghost use Rattle.lookup_standings.specs.Gathering.{Room, PutAt, Gatherable, Gathered, Answers};

use bytes_copy::copy;
use ledger_refusals::Refusal;
use ledger_sorting::Key;
use ledger_sorting::sorted::sorted;
use ledger_state::{PLACES, Place, Replica};
use lookup_merge::merge;
use standing_bytes::standing_byte;
use update_format::numbers::ID_LENGTH;
use update_format::{Malformed, ascends};

// How many bytes the ids of all places have.
const IDS_LENGTH: usize = PLACES * ID_LENGTH;

// Puts the id of a place at index k of the ids, and the byte of its standing at index k of the standings.
fn put(place: &Place, k: usize, ids: &mut [u8], standings: &mut [u8])
    requires { Room k ids.old standings.old }
    ensures { PutAt (place_of place.now) k ids.old standings.old ids.new standings.new }
{
    copy(&mut ids[ID_LENGTH * k..], &place.id);
    standings[k] = standing_byte(place.standing);
}

// Lays the ids of the listed places end to end, and beside them the bytes of their standings.
fn gather(replica: &Replica, places: &[usize], ids: &mut [u8], standings: &mut [u8])
    requires { Gatherable places.now ids.old standings.old }
    ensures { Gathered (book replica.now) places.now ids.old standings.old ids.new standings.new }
{
    for k in 0..places.len() {
        let at = places[k];
        put(&replica.ledger.places[at], k, ids, standings);
    }
}

// Answers the asked ids, and gives how many comparisons of two ids the walk made.
fn answer(replica: &Replica, asked: &[u8], out: &mut [u8]) -> usize
    requires { id_count asked.now ≤ length out.old }
    ensures { Answers (book replica.now) asked.now out.old result out.new }
{
    let places = sorted(replica, Key::Id);
    let listed = places.as_slice();
    let mut ids = [0u8; IDS_LENGTH];
    let mut standings = [0u8; PLACES];
    gather(replica, listed, &mut ids, &mut standings);
    merge(&ids, &standings[..listed.len()], asked, out)
}

// Rows 8, 9 and 11, in their order, and then the answers: how many comparisons of two ids the walk made.
pub fn look_up(replica: &Replica, asked: &[u8], out: &mut [u8]) -> Result<usize, Refusal>
    requires { sound (book replica.now) (store_of replica.now) ≡ true }
    ensures { LookupRow (book replica.now) (store_of replica.now) asked.now out.old (looked_up result) out.new }
{
    if asked.len() % ID_LENGTH != 0 {
        return Err(Refusal::Malformed(Malformed::Layout));
    }
    let count = asked.len() / ID_LENGTH;
    if !ascends(asked, 0, count) {
        return Err(Refusal::Malformed(Malformed::Unordered));
    }
    if out.len() < count {
        return Err(Refusal::Short);
    }
    Ok(answer(replica, asked, out))
}
