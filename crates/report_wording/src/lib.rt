// The words and the lines of the report, printed on a page that the caller lends.
#![tactic(auto)]

ghost use Rattle.std.specs.Prelude.{◌+◌, ◌*◌, ◌≤◌, ◌++◌};
ghost use Rattle.update_format.specs.Update.{document_bounds, id_length};
ghost use Rattle.update_format.specs.Decode.{decode};
ghost use Rattle.bytes_ascii.specs.Ascii.{ascii, hex};
ghost use Rattle.rules.specs.Report.{bytes_line, mark_line};
ghost use Rattle.bytes_print.specs.Page.{Printed, farthest};
ghost use Rattle.report_wording.specs.Lines.{max_report_line, LineOf, MarkLineOf, word_of, mark_end, author_line_by, line_by};

use bytes_print::Page;
use rules::MarkKind;

// The parts of the report that show updates.
#[derive(Clone, Copy)]
pub enum Part {
    Held,
    Heads,
    Waiting,
    Void,
    Set,
    List,
}

// Prints the first line of a part.
pub fn word(part: Part, page: &mut Page)
    requires { page.old.at ≤ farthest }
    ensures prints { Printed page.old (word_of part) page.new }
    ensures small { page.new.at ≤ page.old.at + 10 }
{
    let word: &[u8] = match part {
        Part::Held => b"(held\n",
        Part::Heads => b"(heads\n",
        Part::Waiting => b"(waiting\n",
        Part::Void => b"(void\n",
        Part::Set => b"(set\n",
        Part::List => b"(list\n",
    };
    page.put(word);
}

// The opening bracket and bytes.
fn open_bytes(bytes: &[u8], page: &mut Page)
    requires { LineOf page.old.at bytes.now }
    ensures prints { Printed page.old (ascii "(" ++ hex bytes.now) page.new }
    ensures small { page.new.at ≤ page.old.at + (1 + 2 * id_length) }
{
    page.put(b"(");
    page.hex(bytes);
}

// A line of bytes.
fn bytes_line(bytes: &[u8], page: &mut Page)
    requires { LineOf page.old.at bytes.now }
    ensures prints { Printed page.old (bytes_line bytes.now) page.new }
    ensures small { page.new.at ≤ page.old.at + max_report_line }
{
    open_bytes(bytes, page);
    page.put(b")\n");
}

// A line of bytes and of the author of an update's bytes, b.
fn author_line(bytes: &[u8], b: &[u8], page: &mut Page)
    requires { LineOf page.old.at bytes.now }
    ensures prints { Printed page.old (author_line_by bytes.now (decode document_bounds b.now)) page.new }
    ensures small { page.new.at ≤ page.old.at + max_report_line }
{
    open_bytes(bytes, page);
    page.put(b" ");
    page.decimal(usize::from(update_fields::author_of(b)));
    page.put(b")\n");
}

// The end of a mark's line: what the author is marked for.
fn mark_end(kind: MarkKind, page: &mut Page)
    requires { page.old.at ≤ farthest }
    ensures prints { Printed page.old (mark_end kind) page.new }
    ensures small { page.new.at ≤ page.old.at + 10 }
{
    let end: &[u8] = match kind {
        MarkKind::Fork => b" fork)\n",
        MarkKind::Fault => b" fault)\n",
        MarkKind::Both => b" both)\n",
    };
    page.put(end);
}

// Prints the line of a marked author.
pub fn mark_line(author: usize, kind: MarkKind, page: &mut Page)
    requires { MarkLineOf page.old.at author }
    ensures prints { Printed page.old (mark_line (record { author = author; kind = kind })) page.new }
    ensures small { page.new.at ≤ page.old.at + max_report_line }
{
    page.put(b"(");
    page.decimal(author);
    mark_end(kind, page);
}

// Prints the line in a part of an update with this id and these bytes.
pub fn line_by(id: &[u8], b: &[u8], part: Part, page: &mut Page)
    requires { LineOf page.old.at id.now }
    ensures prints { Printed page.old (line_by part id.now (decode document_bounds b.now)) page.new }
    ensures small { page.new.at ≤ page.old.at + max_report_line }
{
    match part {
        Part::Held | Part::Waiting | Part::Void => author_line(id, b, page),
        Part::Heads => bytes_line(id, page),
        Part::Set => author_line(update_fields::tag_of(b), b, page),
        Part::List => bytes_line(update_fields::value_of(b), page),
    }
}
