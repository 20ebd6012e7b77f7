// Lists of places, and the orders of a ledger's places.
#![tactic(auto)]

pub mod sorted;

pub use ledger_lists::Places;

// What an ascending list of places goes by. The definitions and the theorems of specs/ are by it.
#[derive(Clone, Copy)]
pub enum Key {
    Id,
    SetEntry,
}
