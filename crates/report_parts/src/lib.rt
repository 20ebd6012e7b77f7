// What the report shows of a ledger and its store: the marked authors, and the places of the list's entries.
#![tactic(auto)]

pub mod list;
pub mod marks;

// What of a place marks its author: it is one of two that are a fork; it is a fault. The definitions and the theorems of specs/ are by it.
#[derive(Clone, Copy)]
pub enum Evidence {
    Fork,
    Fault,
}
