// Whether row 1 of the table applies to a ledger and its store.
#![tactic(auto)]

ghost use Rattle.std.specs.Prelude.{◌≡◌, ◌≤◌, MatchResult};
ghost use Rattle.bitset.specs.Below.{all_below};
ghost use Rattle.ledger_state.specs.State.{places, document_terms};
ghost use Rattle.ledger_state.specs.View.{place_of, book_of};
ghost use Rattle.ledger_state.specs.Row1.{sound, sound_place};
ghost use Rattle.ledger_row1.specs.Checked.{sound_at, Fit, NotFit};

use ledger_refusals::Refusal;
use ledger_state::{Ledger, PLACES, Place, Replica, STORE_LENGTH};
use update_format::numbers::{MAX_LENGTH, MIN_LENGTH};

// Whether a taken place's length and ancestors are possible ones.
#[tactic(auto, unfolding(ledger_state::specs::Row1::sound_place))]
fn sound_place(used: usize, p: Place) -> bool
    ensures { result ≡ sound_place document_terms used (place_of p) }
{
    MIN_LENGTH <= p.length && p.length <= MAX_LENGTH && bitset::within(p.ancestors, used)
}

// Whether each taken place is sound.
fn places_sound(ledger: &Ledger) -> bool
    requires { ledger.now.used ≤ places }
    ensures { result ≡ all_below ledger.now.used (sound_at (book_of ledger.now)) }
{
    (0..ledger.used).all(|k| sound_place(ledger.used, ledger.places[k]))
}

// Whether row 1 does not apply.
#[tactic(auto, unfolding(ledger_state::specs::Row1::sound))]
pub fn sound(ledger: &Ledger, store: &[u8]) -> bool
    ensures { result ≡ sound (book_of ledger.now) store.now }
{
    store.len() == STORE_LENGTH && ledger.used <= PLACES && places_sound(ledger)
}

// The ledger with its store, to be read; a refusal where row 1 applies.
#[tactic(auto, using(ledger_state::proofs::Row1Laws::few_taken))]
pub fn checked<'a>(ledger: &'a Ledger, store: &'a [u8]) -> Result<Replica<'a>, Refusal>
    ensures { MatchResult result (λ r. Fit ledger.now store.now r) (λ e. NotFit ledger.now store.now e) }
{
    if sound(ledger, store) {
        Ok(Replica { ledger, store })
    } else {
        Err(Refusal::Unfit)
    }
}
