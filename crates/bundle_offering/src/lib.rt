// Offering a bundle of updates to a ledger to which row 1 does not apply.
#![tactic(auto)]

ghost use Rattle.std.specs.Prelude.{◌≡◌, true};
ghost use Rattle.ledger_state.specs.Row1.{sound};
ghost use Rattle.ledger_state.specs.View.{book_of};
ghost use Rattle.bundle_offering.specs.Bundle.{bundle_values, BundleRow, Bundling, Offerable, AllOffered};

use bundle_answers::{ANSWER_LENGTH, put_answer};
use bundle_format::{LENGTH_BYTES, count, item};
use ledger_offering::offer_sound;
use ledger_refusals::Refusal;
use ledger_state::Ledger;

// How many bytes of the answer buffer were written, or why the bundle is refused, beside the ledger that the next call is handed.
#[derive(Clone, Copy)]
pub struct BundleOffered {
    pub answer: Result<usize, Refusal>,
    pub ledger: Ledger,
}

// Offers the n items of a bundle in order. One that is turned away does not stop those after it.
fn offer_items(ledger: &mut Ledger, store: &mut [u8], bundle: &[u8], n: usize, answers: &mut [u8])
    requires { Offerable (book_of ledger.old) store.old bundle.now n answers.old }
    ensures { AllOffered ledger.old store.old bundle.now answers.old ledger.new store.new answers.new }
{
    let mut at = 0;
    for k in 0..n {
        let x = item(bundle, at);
        let offered = offer_sound(*ledger, store, x);
        *ledger = offered.ledger;
        put_answer(answers, ANSWER_LENGTH * k, offered.answer);
        at += LENGTH_BYTES + x.len();
    }
}

// The answer to any bytes.
fn answer(
    ledger: &mut Ledger,
    store: &mut [u8],
    bundle: &[u8],
    answers: &mut [u8],
) -> Result<usize, Refusal>
    requires { sound (book_of ledger.old) store.old ≡ true }
    ensures { BundleRow ledger.old store.old bundle.now answers.old (bundle_values result) ledger.new store.new answers.new }
{
    let n = count(bundle).ok_or(Refusal::Bundle)?;
    let length = ANSWER_LENGTH * n;
    if answers.len() < length {
        return Err(Refusal::Short);
    }
    offer_items(ledger, store, bundle, n, answers);
    Ok(length)
}

// The offer of a bundle.
pub fn offer_bundle_sound(
    mut ledger: Ledger,
    store: &mut [u8],
    bundle: &[u8],
    answers: &mut [u8],
) -> BundleOffered
    requires { sound (book_of ledger) store.old ≡ true }
    ensures { Bundling ledger store.old bundle.now answers.old result store.new answers.new }
{
    let answer = answer(&mut ledger, store, bundle, answers);
    BundleOffered { answer, ledger }
}
