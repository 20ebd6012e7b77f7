// An offer to a ledger to which row 1 does not apply.
#![tactic(auto)]

ghost use Rattle.std.specs.Prelude.{◌≡◌, ℕ, List, true, Ok};
ghost use Rattle.update_format.specs.Update.{Update};
ghost use Rattle.ledger_state.specs.State.{room_in};
ghost use Rattle.ledger_state.specs.Row1.{sound};
ghost use Rattle.ledger_state.specs.View.{book_of};
ghost use Rattle.ledger_offering.specs.Offer.{Offering, OfferRow, Takeable};
ghost use Rattle.ledger_offering.specs.Values.{offer_values};

use ledger_refusals::Refusal;
use ledger_settling::settle;
use ledger_state::store::write_at;
use ledger_state::{Ledger, PLACES, Replica, Standing};
use update_format::Id;

// What an offer that is not refused answers.
#[derive(Clone, Copy, PartialEq, Eq)]
pub enum Answer {
    // The update took a place: how it stands, how many updates are newly held, and how many newly void.
    Taken {
        standing: Standing,
        held: usize,
        void: usize,
    },
    // The update was stored before, and stands so.
    Known(Standing),
}

// The answer, or why the offer is refused, beside the ledger that the next call is handed.
#[derive(Clone, Copy)]
pub struct Offered {
    pub answer: Result<Answer, Refusal>,
    pub ledger: Ledger,
}

// Takes the next place for an update whose id is not stored, and settles.
fn take(ledger: &mut Ledger, store: &mut [u8], update: &[u8], id: Id) -> Answer
    requires { Takeable (book_of ledger.old) store.old update.now id }
    ensures { OfferRow ledger.old store.old update.now (offer_values (Ok result)) ledger.new store.new }
{
    let k = ledger.used;
    write_at(store, k, update);
    let settled = settle(ledger.taken(id, update.len()), store, k);
    *ledger = settled.ledger;
    Answer::Taken {
        standing: ledger.places[k].standing,
        held: settled.held,
        void: settled.void,
    }
}

// Whether a place is free.
#[tactic(auto, unfolding(ledger_state::specs::State::room_in))]
fn has_room(ledger: &Ledger) -> bool
    ensures { (s : List ℕ) (u : Update) → result ≡ room_in (book_of ledger.now) s u }
{
    ledger.used < PLACES
}

// The answer to any bytes: a well-formed update is hashed once, and looked up.
#[tactic(auto, using(ledger_state::proofs::Row1Laws::few_taken, ledger_state::proofs::FindLaws::found_below))]
fn offer_to(ledger: &mut Ledger, store: &mut [u8], update: &[u8]) -> Result<Answer, Refusal>
    requires { sound (book_of ledger.old) store.old ≡ true }
    ensures { OfferRow ledger.old store.old update.now (offer_values result) ledger.new store.new }
{
    update_parsing::read(update)?;
    let id = sha256_digest::digest(update);
    let replica = Replica { ledger, store };
    if let Some(k) = replica.find(&id) {
        return Ok(Answer::Known(ledger.places[k].standing));
    }
    if !has_room(ledger) {
        return Err(Refusal::Full);
    }
    Ok(take(ledger, store, update, id))
}

// The offer of any bytes.
pub fn offer_sound(mut ledger: Ledger, store: &mut [u8], update: &[u8]) -> Offered
    requires { sound (book_of ledger) store.old ≡ true }
    ensures { Offering ledger store.old update.now result store.new }
{
    let answer = offer_to(&mut ledger, store, update);
    Offered { answer, ledger }
}
