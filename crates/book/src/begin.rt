// Begin: a program takes the next number, and its results are pending.
ghost use Rattle.std.specs.Prelude.{◌≡◌, true, false, cond, ◌++◌, ◌<◌, ◌≤◌};
ghost use Rattle.std.specs.Result.{result_and};
ghost use Rattle.conditions.specs.Places.{places};
ghost use Rattle.book.specs.Answers.{first_of};
ghost use Rattle.book.specs.Book.{most_districts, most_items, last_number};
ghost use Rattle.book.specs.Items.{becomes};
ghost use Rattle.book.specs.States.{steps_of, program_of};
ghost use Rattle.book.specs.Programs.{steps, some_step};
ghost use Rattle.book.specs.Alternatives.{WorkedOut};
ghost use Rattle.book.specs.Begin.{outside, some_busy, too_many, begun, begins, begin};
ghost use Rattle.book.specs.Judged.{program_tests, room_tests, room_of};
ghost use Rattle.book.specs.SoundTest.{sound};

use crate::alternatives::{Worked, too_many, worked_out};
use crate::program::{Program, bad_program, read};
use crate::tables::free_place;
use crate::touched::{begun_records, some_busy, with_district};
use crate::{Begun, Book, Item, Open, Refusal};
use conditions::TransactionNumber;
use polyvalues::Polyvalue;

// How many numbers can be given.
const NUMBERS: u16 = 65535;

// The item with its new values pending, if it is touched.
fn begun_item(x: Item, is_touched: bool, new: Polyvalue) -> Item
    ensures { result ≡ cond is_touched (becomes x x.held new) x }
{
    if is_touched {
        Item { pending: new, ..x }
    } else {
        x
    }
}

// What a program takes as it begins: the lowest free place, and the districts that it touches.
#[derive(Clone, Copy)]
pub struct Room {
    pub place: usize,
    pub districts: u8,
}

// The next number is given to the program, at the place.
// kept: what may not change: an unsound book may be handed in (refusals, "33 items"): no invariant on its count.
fn begun(mut b: Book, p: Program, w: Worked, room: Room) -> Book
    requires districts_le_most_districts { (b.districts ≤ most_districts) × (b.count ≤ most_items) × (b.last.0 < last_number) }
    requires room_value { (room ≡ room_of places b (steps_of p)) × (room.place < places) }
    requires worked_out { WorkedOut places b (steps_of p) w }
    ensures { result ≡ begun places b (steps_of p) }
{
    let number = TransactionNumber(b.last.0 + 1);
    // kept: no plainer in a function lent the items, as in give_up.rt: its contract is longer than the loop.
    for i in 0..b.count {
        b.items[i] = begun_item(b.items[i], p.touches(i), w.new[i]);
    }
    b.last = number;
    b.records = begun_records(b.records, b.districts, room.districts, number);
    b.open[room.place] = Open {
        number,
        touched: room.districts,
        ready: 0,
        gave: 0,
        decision: 0,
    };
    b
}

// Refused: no number, no grant, the book as it came.
fn refused(b: Book, refusal: Refusal) -> Begun
    ensures { result ≡ record { answer = Err refusal; number = record { 0 = 0 }; grant = 0; book = b } }
{
    Begun {
        answer: Err(refusal),
        number: TransactionNumber(0),
        grant: 0,
        book: b,
    }
}

// Begin of a program that has room and a number: only its values may be too many. The touched
// districts were on no transaction and the others stay on theirs, so there is nothing to forget.
fn begin_at(b: Book, p: Program, room: Room) -> Begun
    requires b_value { (sound places b ≡ true) × (some_busy b (steps_of p) ≡ false) }
    requires p_value { some_step (outside b.count) (steps_of p) ≡ false }
    requires room_value { (room ≡ room_of places b (steps_of p)) × (room.place < places) × (b.last.0 < last_number) }
    ensures { result ≡ begins places (cond (too_many places b (steps_of p)) (Err Refusal.TooManyValues) (Ok tt)) b (steps_of p) }
{
    let Some(w) = worked_out(&b, p) else {
        return refused(b, Refusal::TooManyValues);
    };
    if too_many(&b, p, &w) {
        return refused(b, Refusal::TooManyValues);
    }
    let grant = w.granted();
    let after = begun(b, p, w, room);
    let number = after.last;
    Begun {
        answer: Ok(()),
        number,
        grant,
        book: after,
    }
}

impl Book {
    // The program of the bytes: 15, 3, 2.
    fn program(&self, bytes: &[u8]) -> Result<Program, Refusal>
        ensures { result ≡ result_and (first_of (program_tests places self.now bytes.now)) (Ok (program_of (steps bytes.now))) }
    {
        if !self.is_sound() {
            return Err(Refusal::Unsound);
        }
        if bad_program(bytes) {
            return Err(Refusal::BadProgram);
        }
        let p = read(bytes);
        if p.is_outside(self.count) {
            return Err(Refusal::NoItem);
        }
        Ok(p)
    }

    // The room that the program takes as it begins: 5, 6, 7.
    fn room(&self, p: Program) -> Result<Room, Refusal>
        requires { sound places self.now ≡ true }
        ensures { result ≡ result_and (first_of (room_tests places self.now (steps_of p))) (Ok (room_of places self.now (steps_of p))) }
    {
        let mut set = 0;
        for (i, x) in self.items[..self.count].iter().enumerate() {
            set = with_district(set, p.touches(i), x.district);
        }
        if some_busy(&self.records[..self.districts], set) {
            return Err(Refusal::NotIdle);
        }
        let Some(q) = free_place(self.open) else {
            return Err(Refusal::AllOpen);
        };
        if NUMBERS <= self.last.0 {
            return Err(Refusal::NumbersGiven);
        }
        Ok(Room {
            place: q,
            districts: set,
        })
    }

    // The program and its room, one test after the other: all but 8.
    fn may_begin(&self, bytes: &[u8]) -> Result<(Program, Room), Refusal>
        ensures { result ≡ result_and (first_of (program_tests places self.now bytes.now ++ room_tests places self.now (steps bytes.now))) (Ok (program_of (steps bytes.now), room_of places self.now (steps bytes.now))) }
    {
        let p = self.program(bytes)?;
        let room = self.room(p)?;
        Ok((p, room))
    }

    // Begin, the call: it is handed the program's bytes.
    pub fn begin(self, bytes: &[u8]) -> Begun
        ensures { result ≡ begin places self bytes.now }
    {
        match self.may_begin(bytes) {
            Ok((p, room)) => begin_at(self, p, room),
            Err(refusal) => refused(self, refusal),
        }
    }
}
