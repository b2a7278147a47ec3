// The customer's number for each answer.
ghost use Rattle.std.specs.Prelude.{◌≡◌};
ghost use Rattle.book.specs.Answers.{refusal_number, answer_number};

use crate::{Answer, Refusal};

impl Refusal {
    // Its number.
    // kept: no plainer: `as u8` of an enum is its discriminant, here document 01's number (refusal_number).
    pub fn number(self) -> u8
        ensures { result ≡ refusal_number self }
    {
        self as u8
    }
}

// The number of an answer: 0 where the call is accepted.
pub fn answer_number(answer: Answer) -> u8
    ensures { result ≡ answer_number answer }
{
    match answer {
        Ok(()) => 0,
        Err(refusal) => refusal.number(),
    }
}
