// Document 01: "The reader of an update carries the lent bytes together with how far it has read". `start`, `past` and `byte` are all that is
// done with one; `read_header` carries one through an update's layout, for every caller with a plain slice.
#![tactic(auto)]

ghost use Rattle.std.specs.Prelude.{◌≡◌, ◌+◌, ◌<◌, ◌^◌, get_or};
ghost use Rattle.update_header.specs.Header.{header_of};

use update_format::numbers::{ID_LENGTH, TAG_LENGTH};

#[derive(Clone, Copy)]
pub struct Reader<'a> {
    pub bytes: &'a [u8],
    pub at: usize,
}

// The bytes that say how an update is laid out, and where its operation's own bytes begin. `named` is a Remove's count byte; 0 stands for a
// missing byte.
#[derive(Clone, Copy)]
pub struct Header {
    pub version: u8,
    pub author: u8,
    pub count: u8,
    pub kind: u8,
    pub body: usize,
    pub named: u8,
}

impl<'a> Reader<'a> {
    // The reader at the first byte.
    fn start(bytes: &'a [u8]) -> Reader<'a>
        ensures { (result.bytes ≡ bytes.entry) × (result.at ≡ 0) }
    {
        Reader { bytes, at: 0 }
    }

    // The reader n bytes further.
    fn past(self, n: usize) -> Reader<'a>
        requires { self.at + n < 2 ^ 64 }
        ensures { (result.bytes ≡ self.entry.bytes) × (result.at ≡ self.entry.at + n) }
    {
        Reader {
            at: self.at + n,
            ..self
        }
    }

    // The byte at the reader; 0 stands for a missing one.
    fn byte(self) -> u8
        ensures { result ≡ get_or self.entry.bytes.now self.entry.at 0 }
    {
        self.bytes.get(self.at).copied().unwrap_or(0)
    }
}

// What a reader finds on its way from the version to a Remove's count byte.
pub fn read_header(s: &[u8]) -> Header
    ensures { result ≡ header_of s.now }
{
    let at_version = Reader::start(s);
    let version = at_version.byte();
    let at_author = at_version.past(1);
    let author = at_author.byte();
    let at_count = at_author.past(1);
    let count = at_count.byte();
    let at_ids = at_count.past(1);
    let at_kind = at_ids.past(ID_LENGTH * usize::from(count));
    let kind = at_kind.byte();
    let at_body = at_kind.past(1);
    let named = at_body.past(TAG_LENGTH).byte();
    Header {
        version,
        author,
        count,
        kind,
        body: at_body.at,
        named,
    }
}
