// Answers: what is printed for a line.
#![tactic(auto)]

ghost use Rattle.std.specs.Prelude.{◌≡◌, ◌+◌, ◌≤◌, Ok, Err};
ghost use Rattle.bytes_print.specs.Page.{Prints, Printed};
ghost use Rattle.ledger_offering.specs.Values.{offer_values};
ghost use Rattle.ledger_offering.specs.Words.{standing_word, answer_text};
ghost use Rattle.ledger_offering.specs.declared.Answer.TheVariants.{Taken, Known};
ghost use Rattle.command_answers.specs.Answers.{max_answer, Counts, Printable, ReplyPrintable, reply_text, ReadsOffer};

use bytes_print::Page;
use command_syntax::{MAX_OFFERED, read_line, unhex};
use ledger_offering::Answer;
use ledger_refusals::Refusal;
use ledger_state::Standing;

// The word of a standing.
#[tactic(auto, unfolding(ledger_offering::specs::Words::standing_word, bytes_ascii::specs::Ascii::ascii, bytes_ascii::specs::Ascii::codes))]
fn print_standing(page: &mut Page, standing: Standing)
    requires { page.old.at ≤ max_answer }
    ensures prints { Printed page.old (standing_word standing) page.new }
    ensures small { page.new.at ≤ page.old.at + 7 }
{
    match standing {
        Standing::Held => page.put(b"held"),
        Standing::Waiting => page.put(b"waiting"),
        Standing::Void => page.put(b"void"),
    }
}

// The answer of an update that took a place.
fn print_taken(page: &mut Page, standing: Standing, held: usize, void: usize)
    requires start { page.old.at ≡ 0 }
    requires few { Counts held void }
    ensures prints { Printed page.old (answer_text (Ok (Taken standing held void))) page.new }
    ensures small { page.new.at ≤ max_answer }
{
    page.put(b"(taken ");
    print_standing(page, standing);
    page.put(b" ");
    page.decimal(held);
    page.put(b" ");
    page.decimal(void);
    page.put(b")\n");
}

// The answer of an update that was stored before.
fn print_known(page: &mut Page, standing: Standing)
    requires { page.old.at ≡ 0 }
    ensures prints { Printed page.old (answer_text (Ok (Known standing))) page.new }
    ensures small { page.new.at ≤ max_answer }
{
    page.put(b"(known ");
    print_standing(page, standing);
    page.put(b")\n");
}

// The answer of an offer that was refused.
fn print_refused(page: &mut Page, refusal: Refusal)
    requires { page.old.at ≡ 0 }
    ensures prints { Printed page.old (answer_text (Err refusal)) page.new }
    ensures small { page.new.at ≤ max_answer }
{
    page.put(b"(refused ");
    page.decimal(usize::from(refusal.number()));
    page.put(b")\n");
}

// The text of an answer.
pub fn print_answer(page: &mut [u8], answer: Result<Answer, Refusal>) -> usize
    requires { Printable (offer_values answer) }
    ensures prints { Prints page.old 0 (answer_text answer) page.new result }
    ensures small { result ≤ max_answer }
{
    let mut page = Page::new(page);
    match answer {
        Ok(
            Answer::Taken {
                standing,
                held,
                void,
            },
        ) => print_taken(&mut page, standing, held, void),
        Ok(Answer::Known(standing)) => print_known(&mut page, standing),
        Err(refusal) => print_refused(&mut page, refusal),
    }
    page.at
}

// The text of what a line is answered: that it is not read, or what its offer is answered.
#[tactic(auto, unfolding(bytes_ascii::specs::Ascii::ascii, bytes_ascii::specs::Ascii::codes))]
pub fn print_reply(page: &mut [u8], reply: Option<Result<Answer, Refusal>>) -> usize
    requires { ReplyPrintable reply }
    ensures prints { Prints page.old 0 (reply_text reply) page.new result }
    ensures small { result ≤ max_answer }
{
    let Some(answer) = reply else {
        let mut page = Page::new(page);
        page.put(b"(unread)\n");
        return page.at;
    };
    print_answer(page, answer)
}

// Reads a line of so many bytes. The bytes that it offers, as many as the answer says, are put into the update buffer.
pub fn read_offer(line: &[u8], fill: usize, update: &mut [u8; MAX_OFFERED]) -> Option<usize>
    ensures { ReadsOffer line.now fill result update.new }
{
    let n = read_line(line, fill)?;
    unhex(line, n, update);
    Some(n)
}
