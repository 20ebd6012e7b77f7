// Printing on a page that the caller lends.
#![tactic(auto)]

ghost use Rattle.std.specs.Prelude.{◌≡◌, ◌+◌, ◌*◌, ◌≤◌, ◌<◌, length};
ghost use Rattle.bytes_ascii.specs.Ascii.{hex, decimal};
ghost use Rattle.bytes_print.specs.Page.{Printed, farthest, DecimalAt};

// A page that the caller lends, and the byte that it is printed to so far: a text is printed from there on.
#[derive(Drop)]
pub struct Page<'a> {
    pub bytes: &'a mut [u8],
    pub at: usize,
}

impl<'a> Page<'a> {
    // A page of these bytes, on which nothing is printed.
    pub fn new(bytes: &'a mut [u8]) -> Page<'a>
        ensures same_page { result.bytes.ghost_name ≡ bytes.entry.ghost_name }
        ensures bytes { result.bytes.now ≡ bytes.old }
        ensures at { result.at ≡ 0 }
    {
        Page { bytes, at: 0 }
    }

    // Prints the text where it fits whole.
    pub fn put(&mut self, text: &[u8])
        requires { self.old.at ≤ farthest }
        ensures { Printed self.old text.now self.new }
    {
        let end = self.at + text.len();
        if end <= self.bytes.len() {
            self.bytes[self.at..end].copy_from_slice(text);
        }
        self.at = end;
    }

    // Prints the digits of the bytes, lowercase, where they fit whole.
    pub fn hex(&mut self, bytes: &[u8])
        requires { self.old.at + 2 * length bytes.now ≤ farthest }
        ensures prints { Printed self.old (hex bytes.now) self.new }
        ensures small { self.new.at ≡ self.old.at + 2 * length bytes.now }
    {
        let end = self.at + 2 * bytes.len();
        if end <= self.bytes.len() {
            let _ = hex::encode_to_slice(bytes, &mut self.bytes[self.at..end]);
        }
        self.at = end;
    }

    // Prints a number below 10,000, base ten.
    pub fn decimal(&mut self, n: usize)
        requires { DecimalAt self.old.at n }
        ensures prints { Printed self.old (decimal n) self.new }
        ensures small { self.new.at ≤ self.old.at + 4 }
    {
        let mut digits = itoa::Buffer::new();
        self.put(digits.format(n).as_bytes());
    }
}
