// The order of byte strings: compared as unsigned bytes from the first.
#![tactic(auto)]

ghost use Rattle.std.specs.Prelude.{◌≡◌};
ghost use Rattle.bytes_order.specs.Compare.{order_of};
ghost use Rattle.bytes_order.specs.Order.{same};

use std::cmp::Ordering;

// How a stands to b: by the first byte in which they differ, and where one begins the other, the shorter comes first.
#[tactic(auto, using(crate::specs::CompareLaws::cmp_is_order))]
pub fn compare(a: &[u8], b: &[u8]) -> Ordering
    ensures { result ≡ order_of a.now b.now }
{
    a.cmp(b)
}

// Whether a and b are the same bytes.
#[tactic(auto, using(crate::specs::CompareLaws::eq_is_same))]
pub fn same(a: &[u8], b: &[u8]) -> bool
    ensures { result ≡ same a.now b.now }
{
    a == b
}
