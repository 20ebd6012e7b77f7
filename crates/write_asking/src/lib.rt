// Writing an update that rows 1, 4, 8 and 9 let through.
#![tactic(auto)]

ghost use Rattle.ledger_state.specs.View.{book, store_of};
ghost use Rattle.write_asking.specs.Write.{wrote_values, Writing, WellAsked};

use ledger_judging::{Judgement, judge_bytes};
use ledger_refusals::Refusal;
use ledger_state::Replica;
use update_format::numbers::MAX_LENGTH;
use write_operations::Draft;

// Composes the update, judges it as if it were offered, and copies it out: how many bytes of the output buffer it takes.
pub fn write_asked(
    replica: &Replica,
    author: u8,
    draft: &Draft,
    out: &mut [u8],
) -> Result<usize, Refusal>
    requires { WellAsked (book replica.now) (store_of replica.now) author draft.now.named.now }
    ensures { Writing (book replica.now) (store_of replica.now) author draft.now.kind draft.now.tag draft.now.id draft.now.named.now out.old (wrote_values result) out.new }
{
    let mut bytes = [0u8; MAX_LENGTH];
    let end = write_layout::compose(replica, author, draft, &mut bytes);
    let update = &bytes[..end];
    match judge_bytes(replica, update) {
        Judgement::Holds(_) => {
            if out.len() < end {
                return Err(Refusal::Short);
            }
            out[..end].copy_from_slice(update);
            Ok(end)
        }
        Judgement::Fails | Judgement::Waits => Err(Refusal::Invalid),
    }
}
