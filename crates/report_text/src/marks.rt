// The part of the report that shows the marks.
ghost use Rattle.std.specs.Prelude.{◌≡◌, ◌+◌, ◌≤◌, option_to_list};
ghost use Rattle.bytes_order.specs.Member.{concat_map};
ghost use Rattle.bitset.specs.Bits.{has};
ghost use Rattle.update_format.specs.Update.{document_bounds};
ghost use Rattle.rules.specs.Mark.{kinds_by};
ghost use Rattle.rules.specs.Report.{mark_line};
ghost use Rattle.report_parts.specs.PlaceParts.{author_marks};
ghost use Rattle.bytes_print.specs.Page.{Printed, farthest};
ghost use Rattle.report_text.specs.Parts.{marks_part, max_mark_lines, max_marks_part};

use bitset::Set;
use bytes_print::Page;
use report_wording::mark_line;
use rules::MarkKind;
use update_format::numbers::AUTHORS;

// The marked authors: those with a fork, and those with a fault.
#[derive(Clone, Copy)]
pub struct Marks {
    pub forked: Set,
    pub faulty: Set,
}

impl Marks {
    // What author a is marked for, if it is in one of the sets.
    #[tactic(auto, unfolding(rules::specs::Mark::kinds_by))]
    fn kind(self, a: usize) -> Option<MarkKind>
        ensures { option_to_list result ≡ kinds_by (has self.forked a) (has self.faulty a) }
    {
        match (bitset::has(self.forked, a), bitset::has(self.faulty, a)) {
            (true, true) => Some(MarkKind::Both),
            (true, false) => Some(MarkKind::Fork),
            (false, true) => Some(MarkKind::Fault),
            (false, false) => None,
        }
    }

    // The lines of the marked authors, ascending.
    fn lines(self, page: &mut Page)
        requires { page.old.at + max_mark_lines ≤ farthest }
        ensures prints { Printed page.old (concat_map mark_line (author_marks document_bounds.authors (has self.forked) (has self.faulty))) page.new }
        ensures small { page.new.at ≤ page.old.at + max_mark_lines }
    {
        for a in 0..AUTHORS {
            if let Some(kind) = self.kind(a) {
                mark_line(a, kind, page);
            }
        }
    }

    // Prints the part: its word, its lines, the closing bracket.
    pub fn print(self, page: &mut Page)
        requires { page.old.at + max_marks_part ≤ farthest }
        ensures prints { Printed page.old (marks_part (author_marks document_bounds.authors (has self.forked) (has self.faulty))) page.new }
        ensures small { page.new.at ≤ page.old.at + max_marks_part }
    {
        page.put(b"(marks\n");
        self.lines(page);
        page.put(b")\n");
    }
}
