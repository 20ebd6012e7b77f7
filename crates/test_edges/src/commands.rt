// The commands of a script.
use ledger::Form;
use test_script::{LENGTHS, fits, word};

// What a script lends the ledger, by lengths that it sets: the store and the output buffer, and those of a second copy.
#[derive(Clone, Copy, PartialEq, Eq)]
pub enum Lent {
    Store,
    Buffer,
    OtherStore,
    OtherBuffer,
}

impl Lent {
    // The slot whose length it has.
    pub fn slot(self) -> usize {
        LENGTHS + self as usize
    }
}

#[derive(Clone, Copy, PartialEq, Eq)]
pub enum Command {
    Length(Lent),
    Let,
    Fresh,
    Offer,
    Ask,
    Write,
    New,
    Report,
    ReportAs(Form),
    Change,
    View,
    Compare,
    Read,
    Order,
    Rooms,
    Bundle,
    Raw,
    Lookup,
    Spread,
    Asks,
    // A line without words, or that is a comment.
    Nothing,
    Heading,
    // A line that is none of these.
    Unread,
}

// The command of a name, and the form of its words.
fn named(name: &[u8]) -> Option<(Command, &'static [u8])> {
    match name {
        b"store" => Some((Command::Length(Lent::Store), b"-n")),
        b"buffer" => Some((Command::Length(Lent::Buffer), b"-n")),
        b"other-store" => Some((Command::Length(Lent::OtherStore), b"-n")),
        b"other-buffer" => Some((Command::Length(Lent::OtherBuffer), b"-n")),
        b"let" => Some((Command::Let, b"ps")),
        b"fresh" => Some((Command::Fresh, b"-")),
        b"offer" => Some((Command::Offer, b"ss")),
        b"ask" => Some((Command::Ask, b"-s")),
        b"write" => Some((Command::Write, b"ps")),
        b"new" => Some((Command::New, b"ps")),
        b"report" => Some((Command::Report, b"-")),
        b"change" => Some((Command::Change, b"-nnnn")),
        b"view" => Some((Command::View, b"-")),
        b"compare" => Some((Command::Compare, b"-ll")),
        b"read" => Some((Command::Read, b"-s")),
        b"order" => Some((Command::Order, b"-nn")),
        b"full" => Some((Command::ReportAs(Form::Full), b"-")),
        b"short" => Some((Command::ReportAs(Form::Short), b"-")),
        b"rooms" => Some((Command::Rooms, b"-")),
        b"bundle" => Some((Command::Bundle, b"s")),
        b"raw" => Some((Command::Raw, b"s")),
        b"lookup" => Some((Command::Lookup, b"s")),
        b"spread" => Some((Command::Spread, b"-n")),
        b"asks" => Some((Command::Asks, b"-n")),
        _ => None,
    }
}

// The command of a line.
pub fn command_of(line: &[u8]) -> Command {
    match line {
        [b';', ..] => Command::Nothing,
        [b'#', ..] => Command::Heading,
        _ => match named(word(line, 0)) {
            Some((command, form)) if fits(line, form) => command,
            None if word(line, 0).is_empty() && word(line, 1).is_empty() => Command::Nothing,
            _ => Command::Unread,
        },
    }
}
