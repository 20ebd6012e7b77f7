// What a written update is to do: what is asked of the named ids, the kinds of operation, and their bytes.
#![tactic(auto)]

ghost use Rattle.std.specs.Prelude.{◌≡◌, ◌+◌, ◌≤◌};
ghost use Rattle.update_format.specs.Update.{encode_operation};
ghost use Rattle.bytes_print.specs.Page.{Printed};
ghost use Rattle.write_operations.specs.Operations.{farthest_field, max_operation_length, bad_named, unordered_named};
ghost use Rattle.write_operations.specs.Drafted.{drafted};

mod draft;

use bytes_print::Page;
pub use draft::Draft;
pub use update_format::Kind;
use update_format::numbers::{ID_LENGTH, MAX_NAMED};

// How many bytes of named ids there are at most. Widened by `as`: a constant calls no From.
const MAX_NAMED_LENGTH: usize = ID_LENGTH * (MAX_NAMED as usize);

// Whether the named ids' bytes are not a multiple of 32, or over 256: of every kind.
#[tactic(auto, unfolding(crate::specs::Operations::bad_named))]
pub fn bad_named(named: &[u8]) -> bool
    ensures { result ≡ bad_named named.now }
{
    named.len() % ID_LENGTH != 0 || MAX_NAMED_LENGTH < named.len()
}

// Whether the named ids are not strictly ascending: of every kind.
#[tactic(auto, unfolding(crate::specs::Operations::unordered_named))]
pub fn unordered_named(named: &[u8]) -> bool
    ensures { result ≡ unordered_named named.now }
{
    !update_format::ascends(named, 0, named.len() / ID_LENGTH)
}

impl<'a> Draft<'a> {
    // Prints the kind byte and the bytes of the operation. The count of the ids is proved to fit, so `as` loses nothing, where TryFrom would have a refusal to handle.
    pub fn print(&self, page: &mut Page)
        requires { page.old.at ≤ farthest_field }
        ensures prints { Printed page.old (encode_operation (drafted self.now)) page.new }
        ensures small { page.new.at ≤ page.old.at + max_operation_length }
    {
        page.put(&[u8::from(self.kind)]);
        match self.kind {
            Kind::Add => page.put(&self.tag),
            Kind::Remove => {
                page.put(&self.tag);
                page.put(&[(self.named.len() / ID_LENGTH) as u8]);
                page.put(self.named);
            }
            Kind::Insert => {
                page.put(&self.id);
                page.put(&self.tag);
            }
            Kind::Delete => page.put(&self.id),
        }
    }
}
