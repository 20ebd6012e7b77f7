// How far settling has come.
ghost use Rattle.ledger_settling.specs.Roomy.{Roomy};

use ledger_lists::Places;
use ledger_state::Ledger;

// How far settling has come: the ledger; the places settled so far, in order; and how many of them became held, and how many void.
#[derive(Clone, Copy)]
pub struct Settling {
    pub ledger: Ledger,
    pub worklist: Places,
    pub held: usize,
    pub void: usize,
    pub ghost roomy: { Roomy ledger worklist held void },
}
