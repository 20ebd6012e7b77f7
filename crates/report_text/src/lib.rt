// The report of a ledger and its store in one of its forms, printed on a page that the caller lends.
#![tactic(auto)]

ghost use Rattle.std.specs.Prelude.{◌≤◌};
ghost use Rattle.ledger_state.specs.View.{book, store_of};
ghost use Rattle.report_text.specs.Text.{standings, read_offs, text_of};
ghost use Rattle.bytes_print.specs.Page.{Prints, Printed};
ghost use Rattle.report_wording.specs.Lines.{max_report_line};
ghost use Rattle.report_text.specs.Parts.{max_standings, InOrderFrom};

mod marks;
mod parts;

use bytes_print::Page;
use ledger_sorting::{Key, sorted};
use ledger_state::Replica;
use marks::Marks;
use report_parts::marks::marked;
use report_parts::{Evidence, list};
use report_wording::Part;
use rules::Form;

// No report is longer.
pub const MAX_REPORT: usize = 12000;

// No short report is longer.
pub const MAX_SHORT_REPORT: usize = 2644;

// The parts that go by standing.
fn print_standings(replica: &Replica, order: &[usize], page: &mut Page)
    requires { InOrderFrom (book replica.now) (store_of replica.now) order.now page.old.at max_report_line }
    ensures prints { Printed page.old (standings (book replica.now) (store_of replica.now)) page.new }
    ensures small { page.new.at ≤ max_standings }
{
    parts::print(replica, Part::Held, order, page);
    parts::print(replica, Part::Heads, order, page);
    parts::print(replica, Part::Waiting, order, page);
    parts::print(replica, Part::Void, order, page);
}

// The marks, the set and the list, and the closing bracket.
fn print_read_offs(replica: &Replica, order: &[usize], page: &mut Page)
    requires { InOrderFrom (book replica.now) (store_of replica.now) order.now page.old.at max_standings }
    ensures { Printed page.old (read_offs (book replica.now) (store_of replica.now)) page.new }
{
    let marks = Marks {
        forked: marked(replica, Evidence::Fork),
        faulty: marked(replica, Evidence::Fault),
    };
    marks.print(page);
    let added = sorted::sorted(replica, Key::SetEntry);
    parts::print(replica, Part::Set, added.as_slice(), page);
    let entries = list::entries(replica, order);
    parts::print(replica, Part::List, entries.as_slice(), page);
    page.put(b")\n");
}

// Prints the report of a ledger and its store in the form at the start of the page; how long it is.
pub fn print(replica: &Replica, form: Form, page: &mut [u8]) -> usize
    ensures { Prints page.old 0 (text_of (book replica.now) (store_of replica.now) form) page.new result }
{
    let order = sorted::sorted(replica, Key::Id);
    let mut page = Page::new(page);
    page.put(b"(ledger 1\n");
    match form {
        Form::Full => print_standings(replica, order.as_slice(), &mut page),
        Form::Short => {}
    }
    print_read_offs(replica, order.as_slice(), &mut page);
    page.at
}
