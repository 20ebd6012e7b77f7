// The answers to a bundle's items, in the bytes of a lent buffer.
#![tactic(auto)]

ghost use Rattle.std.specs.Prelude.{◌≡◌, ◌+◌, ◌≤◌, length};
ghost use Rattle.bytes_copy.specs.Overwritten.{overwritten};
ghost use Rattle.bytes_words.specs.Words.{bytes_in};
ghost use Rattle.ledger_offering.specs.Values.{offer_values};
ghost use Rattle.bundle_answers.specs.AnswerBytes.{answer_length, answer_bytes};

use bytes_copy::copy;
use ledger_offering::Answer;
use ledger_refusals::Refusal;
use standing_bytes::standing_byte;

// How many bytes of the answer buffer an item's answer takes.
pub const ANSWER_LENGTH: usize = 6;

// The two low bytes of a count, the higher first.
#[tactic(auto, unfolding(bytes_words::specs::Words::bytes_in))]
fn count_bytes(count: usize) -> [u8; 2]
    ensures { result ≡ bytes_in 2 count }
{
    ((count % 65536) as u16).to_be_bytes()
}

// The bytes of an answer.
#[tactic(auto, unfolding(crate::specs::AnswerBytes::answer_bytes, bytes_words::specs::Words::bytes_in))]
fn answer_bytes(answer: Result<Answer, Refusal>) -> [u8; ANSWER_LENGTH]
    ensures { result ≡ answer_bytes (offer_values answer) }
{
    match answer {
        Ok(
            Answer::Taken {
                standing,
                held,
                void,
            },
        ) => {
            let [high, low] = count_bytes(held);
            let [void_high, void_low] = count_bytes(void);
            [0, standing_byte(standing), high, low, void_high, void_low]
        }
        Ok(Answer::Known(standing)) => [1, standing_byte(standing), 0, 0, 0, 0],
        Err(refusal) => [2, refusal.number(), 0, 0, 0, 0],
    }
}

// Puts an answer at byte `at` of the answer buffer, whose tail is lent to the copier.
pub fn put_answer(answers: &mut [u8], at: usize, answer: Result<Answer, Refusal>)
    requires { at + answer_length ≤ length answers.old }
    ensures { answers.new ≡ overwritten answers.old at (answer_bytes (offer_values answer)) }
{
    copy(&mut answers[at..], &answer_bytes(answer));
}
