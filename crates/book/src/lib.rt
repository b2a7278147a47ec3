// The book: districts, items and open transactions, and the events on them.
//
// Every public function is proved to return what its definition in `specs/` says, for every argument:
// any book may be handed in. No public function has a `requires`, and nothing is assumed.
#![tactic(auto)]

mod alternatives;
mod answers;
mod begin;
mod decide;
mod district_sound;
mod forget;
mod give_up;
mod hear;
mod item_sound;
mod items;
mod maker;
mod place_sound;
mod program;
mod ready;
mod records;
mod sets;
mod show;
mod site;
mod sound;
mod state;
mod steps;
mod tables;
mod touched;

pub use answers::answer_number;
use conditions::{PLACES, TransactionNumber};
pub use maker::{Openings, opened, zero_book};
use polyvalues::Polyvalue;
pub use tables::{DISTRICTS, ITEMS};

// A district's record: idle (0), computing (1) or waiting (2), and on which transaction.
#[derive(Clone, Copy, Debug, PartialEq, Eq)]
pub struct Record {
    // kept: a number: a book with phase 3 is unsound and answers 15 (sound_record; refusals, "phase 3").
    pub phase: u8,
    pub transaction: TransactionNumber,
}

// An item of a district.
#[derive(Clone, Copy)]
pub struct Item {
    pub district: u8,
    pub held: Polyvalue,
    pub pending: Polyvalue,
}

// An open transaction at its place: sets of districts, and a decision (0 none, 1 completed, 2 aborted).
// A free place is all zeros.
// kept: number 0 and no Option for a free place: `zero_open` tests it (refusals, "free place not zero").
#[derive(Clone, Copy, Debug, PartialEq, Eq)]
pub struct Open {
    pub number: TransactionNumber,
    pub touched: u8,
    pub ready: u8,
    pub gave: u8,
    // kept: a number: a book with decision 3 is unsound and answers 15 (sound_open; refusals, "decision 3").
    pub decision: u8,
}

// The first `districts` records and the first `count` items count; the rows past them are zero.
// kept: rows with a count: fixed memory is a rule, and a count past them answers 15 (refusals, "33 items").
#[derive(Clone, Copy)]
pub struct Book {
    pub last: TransactionNumber,
    pub districts: usize,
    pub records: [Record; DISTRICTS],
    pub count: usize,
    pub items: [Item; ITEMS],
    pub open: [Open; PLACES],
}

// A step of a program: 4 bytes.
#[derive(Clone, Copy, Debug, PartialEq, Eq)]
pub struct Step {
    // kept: a number: any byte may be handed in, and an unknown kind answers 3 (bad_step).
    pub kind: u8,
    pub item: u8,
    pub operand: i16,
}

// An item of a book that is to be opened.
#[derive(Clone, Copy, Debug, PartialEq, Eq)]
pub struct Opening {
    pub district: u8,
    pub value: i16,
}

// Why a call is refused, each with document 01's number.
#[derive(Clone, Copy, Debug, PartialEq, Eq)]
pub enum Refusal {
    NoDistrict = 1,
    NoItem,
    BadProgram,
    NotOpen,
    NotIdle,
    AllOpen,
    NumbersGiven,
    TooManyValues,
    NotOnIt,
    AlreadyDecided,
    NotReady,
    NotDecided,
    Malformed,
    TooLong,
    Unsound,
    ShortBuffer,
}

// What a call answers: it is accepted, or refused.
pub type Answer = Result<(), Refusal>;

// What begin answers.
// kept: number 0 and grant 0 where it is refused, and no Option: `begins` returns them, and refusals prints them.
#[derive(Clone, Copy)]
pub struct Begun {
    pub answer: Answer,
    pub number: TransactionNumber,
    // kept: a number: a refused begin gives 0 too (`begins`), where nothing declined, and refusals prints it.
    pub grant: u8,
    pub book: Book,
}

// What the other events on a transaction answer.
// kept: the book stands beside the Result: document 01 has the next call take it, refused or not (`done`).
#[derive(Clone, Copy)]
pub struct Done {
    pub answer: Answer,
    pub book: Book,
}
