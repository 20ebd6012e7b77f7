// The theorem about two copies of the ledger, with no code: see specs/Copies.antt.
#![tactic(auto)]
