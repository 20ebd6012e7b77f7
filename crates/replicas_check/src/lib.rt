// Two copies of the ledger side by side.
#![tactic(auto)]

ghost use Rattle.std.specs.Prelude.{map};
ghost use Rattle.ledger_state.specs.View.{fresh_ledger};
ghost use Rattle.ledger_offering.specs.Calls.{Offers};
ghost use Rattle.replicas_check.specs.Check.{OneCopy, Checking};

use ledger::{Form, Ledger, Refusal};

// How two full reports compare.
#[derive(Clone, Copy, PartialEq, Eq)]
pub enum Comparison {
    // They are the same bytes, so many.
    Same { length: usize },
    // They differ: the length of each.
    Different { first: usize, second: usize },
}

// Why two copies are not compared.
#[derive(Clone, Copy, PartialEq, Eq)]
pub enum Unreported {
    // The first copy gave no report, for this reason. Its offers were made: its store is as they left it, and its buffer as it was. The second copy was not touched.
    First(Refusal),
    // The second copy gave no report, for this reason. The offers of both were made: the stores are as they left them, the first buffer has the first report, and the
    // second buffer is as it was.
    Second(Refusal),
}

// Offers each byte string of the list, in order, to a fresh ledger.
fn offer_all(xs: &[&[u8]], store: &mut [u8]) -> Ledger
    ensures { Offers fresh_ledger store.old (map (λ x. x.now) xs.now) result store.new }
{
    let mut l = ledger::fresh();
    for x in xs {
        l = ledger::offer(l, store, x).ledger;
    }
    l
}

// One copy: offers all of xs to a fresh ledger, and gives its full report.
fn report_all(xs: &[&[u8]], store: &mut [u8], out: &mut [u8]) -> Result<usize, Refusal>
    ensures { OneCopy (map (λ x. x.now) xs.now) store.old out.old result store.new out.new }
{
    let l = offer_all(xs, store);
    ledger::report_as(l, store, Form::Full, out)
}

// Offers all of xs to a fresh ledger with the store `store` and reports into `out`; offers all of ys to another with `other` and reports into `other_out`;
// and compares the two full reports. Where the first copy gives no report, nothing is offered to the second.
pub fn compare(
    xs: &[&[u8]],
    ys: &[&[u8]],
    store: &mut [u8],
    other: &mut [u8],
    out: &mut [u8],
    other_out: &mut [u8],
) -> Result<Comparison, Unreported>
    ensures { Checking (map (λ x. x.now) xs.now) (map (λ x. x.now) ys.now) store.old other.old out.old other_out.old result store.new other.new out.new other_out.new }
{
    let first = report_all(xs, store, out).map_err(Unreported::First)?;
    let second = report_all(ys, other, other_out).map_err(Unreported::Second)?;
    if bytes_order::same(&out[..first], &other_out[..second]) {
        Ok(Comparison::Same { length: second })
    } else {
        Ok(Comparison::Different { first, second })
    }
}
