// The byte that tells a standing, and the one of an id that is not stored.
#![tactic(auto)]

ghost use Rattle.std.specs.Prelude.{◌≡◌};
ghost use Rattle.standing_bytes.specs.StandingByte.{standing_byte};

use rules::Standing;

// The byte of an id that is not stored.
pub const UNKNOWN: u8 = 3;

// The byte of a standing. A function and no From: neither the standing nor the byte is this crate's, and the bytes are document 02's and no discriminants of the rules.
pub fn standing_byte(standing: Standing) -> u8
    ensures { result ≡ standing_byte standing }
{
    match standing {
        Standing::Held => 0,
        Standing::Waiting => 1,
        Standing::Void => 2,
    }
}
