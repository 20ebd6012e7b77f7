// Whether hours overlap others on their pond: the byte of each entry, with no ledger. What tags are read as lies in a run of numbers, five for each entry.
#![tactic(auto)]

// How many numbers an entry has in a run.
pub const WIDTH: usize = 5;

// What is told of an entry: its tag is plain; it overlaps no other on its pond; it may overlap one; it surely overlaps one. As a number it is the entry's byte.
#[derive(Clone, Copy, PartialEq, Eq)]
pub enum Overlap {
    Plain = 0,
    Nowhere = 1,
    May = 2,
    Surely = 3,
}
