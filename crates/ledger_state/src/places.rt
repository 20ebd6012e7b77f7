// The causal order of two places.
ghost use Rattle.std.specs.Prelude.{◌≡◌};
ghost use Rattle.ledger_state.specs.PlaceOrder.{place_order};
ghost use Rattle.ledger_state.specs.View.{place_of};

use crate::Place;
use rules::CausalOrder;

// How the own place, k, stands to the other, q: document 02, E4. For any two places and any ancestor words: a place that is among its own ancestors is the same as
// itself, and two that are among each other's are apart.
#[tactic(auto, unfolding(crate::specs::PlaceOrder::place_order, rules::specs::CausalOrder::order_by))]
pub fn causal_order(own: Place, k: usize, other: Place, q: usize) -> CausalOrder
    ensures { result ≡ place_order (place_of own) k (place_of other) q }
{
    if k == q {
        return CausalOrder::Same;
    }
    match (
        bitset::has(other.ancestors, k),
        bitset::has(own.ancestors, q),
    ) {
        (true, true) => CausalOrder::Apart,
        (true, false) => CausalOrder::Before,
        (false, true) => CausalOrder::After,
        (false, false) => CausalOrder::Apart,
    }
}
