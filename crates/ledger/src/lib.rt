// The hours ledger: the public library. Copies of the ledger take updates in any order; each stored update is held, waiting or void by its ancestors
// alone. The bookkeeping goes in by value and the new one comes back; the updates' bytes lie in a store that the caller lends.
#![tactic(auto)]

ghost use Rattle.std.specs.Prelude.{◌≡◌};
ghost use Rattle.rules.specs.Report.{default_form, longest};
ghost use Rattle.ledger_state.specs.View.{book_of};
ghost use Rattle.ledger_offering.specs.Offer.{Offering};
ghost use Rattle.bundle_offering.specs.Bundle.{Bundling};
ghost use Rattle.lookup_standings.specs.Lookup.{looked_up, LookupRow};
ghost use Rattle.ledger.specs.Ask.{asked_values, asked_of};
ghost use Rattle.ledger.specs.Report.{Reporting};
ghost use Rattle.write_asking.specs.Write.{wrote_values, Writing};

pub use bundle_answers::ANSWER_LENGTH;
pub use bundle_format::MOST_ITEMS;
pub use bundle_offering::BundleOffered;
use bundle_offering::offer_bundle_sound;
use ledger_offering::offer_sound;
pub use ledger_offering::{Answer, Offered};
pub use ledger_refusals::Refusal;
use ledger_row1::checked;
pub use ledger_state::{Ledger, Standing, fresh};
use lookup_standings::look_up;
use report_text::print;
pub use report_text::{MAX_REPORT, MAX_SHORT_REPORT};
pub use rules::Form;
use update_format::numbers::MAX_AUTHOR;
use update_format::{Id, Malformed, Tag};
use write_asking::write_asked;
pub use write_operations::Kind;
use write_operations::{Draft, bad_named, unordered_named};

// Offers bytes of any length. A well-formed update with a new id takes the next place, and all stored updates are settled. Every other offer leaves the
// ledger and the store as they were.
#[tactic(auto, using(ledger_offering::specs::Offer::unfit))]
pub fn offer(ledger: Ledger, store: &mut [u8], update: &[u8]) -> Offered
    ensures { Offering ledger store.old update.now result store.new }
{
    if let Err(refusal) = checked(&ledger, store) {
        return Offered {
            answer: Err(refusal),
            ledger,
        };
    }
    offer_sound(ledger, store, update)
}

// Offers the items of a bundle in order: MOST_ITEMS of them or fewer, each a two-byte big-endian length, then its bytes. Their answers, ANSWER_LENGTH bytes each, are put
// at the start of the answer buffer; the bytes after them keep their values. Answers, ledger and store are those of single offers in the same order. A refusal leaves
// ledger, store and buffer as they were.
#[tactic(auto, using(bundle_offering::specs::Bundle::unfit))]
pub fn offer_bundle(
    ledger: Ledger,
    store: &mut [u8],
    bundle: &[u8],
    answers: &mut [u8],
) -> BundleOffered
    ensures { Bundling ledger store.old bundle.now answers.old result store.new answers.new }
{
    if let Err(refusal) = checked(&ledger, store) {
        return BundleOffered {
            answer: Err(refusal),
            ledger,
        };
    }
    offer_bundle_sound(ledger, store, bundle, answers)
}

// The standing of an id, and None where no stored update has it.
#[tactic(auto, using(ledger_state::proofs::FindLaws::found_below), unfolding(crate::specs::Ask::asked_of))]
pub fn standing(ledger: Ledger, store: &[u8], id: Id) -> Result<Option<Standing>, Refusal>
    ensures { asked_values result ≡ asked_of (book_of ledger) store.now id }
{
    let found = checked(&ledger, store)?.find(&id);
    Ok(found.map(|k| ledger.places[k].standing))
}

// The standings of many ids, which lie end to end in strictly ascending order: one byte for each, at the start of the output buffer; the bytes after them keep their values.
// The answer is how many comparisons of two ids the walk of the ledger's ids and the asked ones made.
#[tactic(auto, using(lookup_standings::specs::Lookup::unfit))]
pub fn standings(
    ledger: Ledger,
    store: &[u8],
    asked: &[u8],
    out: &mut [u8],
) -> Result<usize, Refusal>
    ensures { LookupRow (book_of ledger) store.now asked.now out.old (looked_up result) out.new }
{
    look_up(&checked(&ledger, store)?, asked, out)
}

// Room for every report in the form: row 11 never comes where the buffer has so many bytes.
pub fn room(form: Form) -> usize
    ensures { result ≡ longest form }
{
    match form {
        Form::Full => MAX_REPORT,
        Form::Short => MAX_SHORT_REPORT,
    }
}

// Puts the report at the start of the output buffer, and gives its length; the bytes after it keep their values. No form is named: the report is the short one.
pub fn report(ledger: Ledger, store: &[u8], out: &mut [u8]) -> Result<usize, Refusal>
    ensures { Reporting default_form (book_of ledger) store.now out.old result out.new }
{
    report_as(ledger, store, Form::Short, out)
}

// The same in the form that is named.
#[tactic(auto, using(crate::specs::Report::unfit))]
pub fn report_as(ledger: Ledger, store: &[u8], form: Form, out: &mut [u8]) -> Result<usize, Refusal>
    ensures { Reporting form (book_of ledger) store.now out.old result out.new }
{
    let replica = checked(&ledger, store)?;
    if room(form) <= out.len() {
        return Ok(print(&replica, form, out));
    }
    let length = print(&replica, form, &mut [0u8; 1]);
    if out.len() < length {
        return Err(Refusal::Short);
    }
    Ok(print(&replica, form, out))
}

// Writes a new update at the start of the output buffer, and gives its length; the bytes after it keep their values. The update is not offered. The tag is an Insert's value
// too, the id an anchor or a deleted id, and the named ids are a Remove's. Rows 8 and 9 look at the named ids' bytes whatever the kind; a kind that names no ids writes none.
#[tactic(auto, using(write_asking::specs::Write::unfit, write_asking::specs::Write::author, write_asking::specs::Write::layout, write_asking::specs::Write::unordered))]
pub fn write(
    ledger: Ledger,
    store: &[u8],
    author: u8,
    kind: Kind,
    tag: Tag,
    id: Id,
    named: &[u8],
    out: &mut [u8],
) -> Result<usize, Refusal>
    ensures { Writing (book_of ledger) store.now author kind tag id named.now out.old (wrote_values result) out.new }
{
    let replica = checked(&ledger, store)?;
    if MAX_AUTHOR < author {
        return Err(Refusal::Malformed(Malformed::Author));
    }
    if bad_named(named) {
        return Err(Refusal::Malformed(Malformed::Layout));
    }
    if unordered_named(named) {
        return Err(Refusal::Malformed(Malformed::Unordered));
    }
    let draft = Draft {
        kind,
        tag,
        id,
        named,
    };
    write_asked(&replica, author, &draft, out)
}
