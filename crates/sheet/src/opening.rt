// Open: a sheet is read whole, and a good one opens a book.
ghost use Rattle.std.specs.Prelude.{◌≡◌};
ghost use Rattle.conditions.specs.Places.{places};
ghost use Rattle.sheet.specs.Open.{refused, open_sheet};

use crate::readers::Wrong;
use crate::sections::{Sheet, whole};
use book::{Answer, Book, Refusal, opened, zero_book};

// How many bytes a sheet may have.
pub const MOST_BYTES: usize = 32768;

// Whether the sheet opened its book, and the place that 13 or 14 gives; the book; where the first
// event stands, and how many there are. Refused, the book is all zero, and so are the numbers.
// kept: no Result: `open_sheet` gives a refused sheet each field, the all-zero book of document 01 among them.
#[derive(Clone, Copy)]
pub struct Opened {
    pub answer: Answer,
    pub place: usize,
    pub book: Book,
    pub first: usize,
    pub count: usize,
}

// What a refused sheet gives.
#[tactic(auto, unfolding(crate::specs::Open::refused))]
fn refused(refusal: Refusal, place: usize) -> Opened
    ensures { result ≡ refused places refusal place }
{
    Opened {
        answer: Err(refusal),
        place,
        book: zero_book(),
        first: 0,
        count: 0,
    }
}

// Open, the call.
#[tactic(auto, unfolding(crate::specs::Open::open_sheet, crate::specs::Open::opened_sheet, crate::specs::Open::refused))]
pub fn open(sheet: &[u8]) -> Opened
    ensures { result ≡ open_sheet places sheet.now }
{
    if MOST_BYTES < sheet.len() {
        return refused(Refusal::TooLong, 0);
    }
    match whole(sheet) {
        Ok(
            Sheet {
                districts,
                items,
                events,
            },
        ) => Opened {
            answer: Ok(()),
            place: 0,
            book: opened(districts, items),
            first: events.first,
            count: events.count,
        },
        Err(Wrong(place)) => refused(Refusal::Malformed, place),
    }
}
