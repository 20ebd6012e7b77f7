// The facts of an update in one word: its author, its kind byte, the count of its predecessors and the count of the ids that it names, a byte each. With them the
// offsets of its fields are known again, and its bytes need not be read for them.
#![tactic(auto)]

ghost use Rattle.std.specs.Prelude.{◌≡◌};
ghost use Rattle.update_format.specs.Kinds.{kind_byte};
ghost use Rattle.update_facts.specs.Facts.{kind_in, named_in, packed, author_by, kind_by, predecessors_by, named_by, operation_by, unpacked, Packable};

use update_format::numbers::{FIRST_PREDECESSOR, ID_LENGTH};
use update_format::{Kind, Operation, Parsed};

// Where the facts stand among the bytes of a word, the lowest first.
const AUTHOR: usize = 0;

const KIND: usize = 1;

const PREDECESSORS: usize = 2;

const NAMED: usize = 3;

// The kind of an operation.
fn kind_of(operation: Operation) -> Kind
    ensures { kind_byte result ≡ kind_in operation }
{
    match operation {
        Operation::Add { .. } => Kind::Add,
        Operation::Remove { .. } => Kind::Remove,
        Operation::Insert { .. } => Kind::Insert,
        Operation::Delete { .. } => Kind::Delete,
    }
}

// How many ids an operation names.
fn named_of(operation: Operation) -> usize
    ensures { result ≡ named_in operation }
{
    match operation {
        Operation::Remove { count, .. } => count,
        _ => 0,
    }
}

// The facts of an update that was read.
#[tactic(auto, unfolding(crate::specs::Facts::packed))]
pub fn pack(update: Parsed) -> u64
    requires { Packable update }
    ensures { result ≡ packed update }
{
    let kind = u8::from(kind_of(update.operation));
    let predecessors = update.count as u8;
    let named = named_of(update.operation) as u8;
    u64::from(u32::from_le_bytes([update.author, kind, predecessors, named]))
}

// The author, of any word.
pub fn author(facts: u64) -> u8
    ensures { result ≡ author_by facts }
{
    facts.to_le_bytes()[AUTHOR]
}

// The kind byte.
pub fn kind(facts: u64) -> u8
    ensures { result ≡ kind_by facts }
{
    facts.to_le_bytes()[KIND]
}

// How many predecessors.
pub fn predecessors(facts: u64) -> usize
    ensures { result ≡ predecessors_by facts }
{
    usize::from(facts.to_le_bytes()[PREDECESSORS])
}

// How many named ids.
pub fn named(facts: u64) -> usize
    ensures { result ≡ named_by facts }
{
    usize::from(facts.to_le_bytes()[NAMED])
}

// The offsets of the operation's fields.
#[tactic(auto, unfolding(crate::specs::Facts::operation_by))]
fn operation(facts: u64) -> Operation
    ensures { result ≡ operation_by facts }
{
    let body = FIRST_PREDECESSOR + ID_LENGTH * predecessors(facts) + 1;
    let kind = Kind::try_from(kind(facts)).unwrap_or(Kind::Delete);
    Operation::laid_out(kind, body, named(facts))
}

// What reading the update gave.
#[tactic(auto, unfolding(crate::specs::Facts::unpacked))]
pub fn unpack(facts: u64) -> Parsed
    ensures { result ≡ unpacked facts }
{
    Parsed {
        author: author(facts),
        count: predecessors(facts),
        operation: operation(facts),
    }
}
