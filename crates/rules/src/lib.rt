// The rules of documents 01 and 02, as definitions and theorems: all of it is in specs/, but for four enums that the code has too.
#![tactic(auto)]

// How an update of a set stands: document 01, "Held, waiting, void".
#[derive(Clone, Copy, PartialEq, Eq)]
pub enum Standing {
    Held,
    Waiting,
    Void,
}

// How one update stands to another: document 02's four answers, E4.
#[derive(Clone, Copy, PartialEq, Eq)]
pub enum CausalOrder {
    Same,
    Before,
    After,
    Apart,
}

// The two forms of a report: document 02, E10.
#[derive(Clone, Copy, PartialEq, Eq)]
pub enum Form {
    Full,
    Short,
}

// What an author is marked for: document 02, E7.
#[derive(Clone, Copy, PartialEq, Eq)]
pub enum MarkKind {
    Fork,
    Fault,
    Both,
}
