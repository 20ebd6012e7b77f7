// A ledger with its store, to be read.
ghost use Rattle.std.specs.Prelude.{◌≤◌};
ghost use Rattle.rules.specs.Terms.{places};

use crate::Ledger;

// A ledger of which no more places are taken than there are, and its store.
#[derive(Clone, Copy)]
pub struct Replica<'a> {
    pub ledger: &'a Ledger,
    pub store: &'a [u8],
    pub ghost fits: { ledger.now.used ≤ places },
}
