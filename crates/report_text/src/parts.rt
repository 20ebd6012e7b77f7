// One part of the report that shows places.
ghost use Rattle.std.specs.Prelude.{◌≡◌, ◌+◌, ◌≤◌, ◌<◌};
ghost use Rattle.bytes_print.specs.Page.{Printed};
ghost use Rattle.ledger_state.specs.State.{places};
ghost use Rattle.ledger_state.specs.View.{book, store_of};
ghost use Rattle.report_text.specs.Parts.{max_lines, max_part, LineAt, ListOnPage, listed_in, line_of, part_lines, part_of};
ghost use Rattle.report_wording.specs.Lines.{max_report_line};

use bytes_print::Page;
use ledger_state::{Replica, Standing};
use report_wording::{Part, line_by, word};

// The line in a part of place k.
fn line(replica: &Replica, part: Part, k: usize, page: &mut Page)
    requires { LineAt page.old.at k }
    ensures prints { Printed page.old (line_of (book replica.now) (store_of replica.now) part k) page.new }
    ensures small { page.new.at ≤ page.old.at + max_report_line }
{
    line_by(&replica.ledger.places[k].id, replica.update(k), part, page);
}

// Whether place k has a line in the part, where it is listed.
fn shows(replica: &Replica, part: Part, k: usize) -> bool
    requires { k < places }
    ensures { result ≡ listed_in (book replica.now) (store_of replica.now) part k }
{
    match part {
        Part::Held => replica.has_standing(k, Standing::Held),
        Part::Heads => ledger_relations::is_head(replica, k),
        Part::Waiting => replica.has_standing(k, Standing::Waiting),
        Part::Void => replica.has_standing(k, Standing::Void),
        Part::Set => true,
        Part::List => ledger_relations::is_shown(replica, k),
    }
}

// The lines of a part.
fn lines(replica: &Replica, part: Part, places: &[usize], page: &mut Page)
    requires { ListOnPage places.now page.old.at max_lines }
    ensures prints { Printed page.old (part_lines (book replica.now) (store_of replica.now) part places.now) page.new }
    ensures small { page.new.at ≤ page.old.at + max_lines }
{
    for k in places {
        if shows(replica, part, *k) {
            line(replica, part, *k, page);
        }
    }
}

// Prints a part: its word, its lines, the closing bracket.
pub fn print(replica: &Replica, part: Part, places: &[usize], page: &mut Page)
    requires { ListOnPage places.now page.old.at max_part }
    ensures prints { Printed page.old (part_of (book replica.now) (store_of replica.now) part places.now) page.new }
    ensures small { page.new.at ≤ page.old.at + max_part }
{
    word(part, page);
    lines(replica, part, places, page);
    page.put(b")\n");
}
