// Why a call of the library is refused.
#![tactic(auto)]

ghost use Rattle.std.specs.Prelude.{◌≡◌};
ghost use Rattle.ledger_refusals.specs.Numbers.{refusal_number, malformed_refusal};

use update_format::Malformed;

// Why a call is refused.
#[derive(Clone, Copy, PartialEq, Eq)]
pub enum Refusal {
    // Row 1: the ledger and the store do not fit each other.
    Unfit,
    // Rows 2 to 9: the bytes are no update.
    Malformed(Malformed),
    // Row 10: all places are taken.
    Full,
    // Row 11: the output buffer is shorter than the result.
    Short,
    // Row 12: the written operation would be void.
    Invalid,
    // Row 13: the bytes are no bundle.
    Bundle,
}

impl Refusal {
    // The number in document 01's table, which document 02 goes on.
    pub fn number(self) -> u8
        ensures { result ≡ refusal_number self }
    {
        match self {
            Refusal::Unfit => 1,
            Refusal::Malformed(m) => m.number(),
            Refusal::Full => 10,
            Refusal::Short => 11,
            Refusal::Invalid => 12,
            Refusal::Bundle => 13,
        }
    }
}

// Bytes that are no update: rows 2 to 9.
impl From<Malformed> for Refusal {
    ghost from_gives = { λ m r. r ≡ malformed_refusal m };

    fn from(malformed: Malformed) -> Refusal {
        Refusal::Malformed(malformed)
    }
}
