// Open: a new book, made of the count of districts and each item's district and value.
ghost use Rattle.std.specs.Prelude.{◌≡◌, ◌++◌, map, ◌-◌, length, replicate};
ghost use Rattle.conditions.specs.Places.{places};
ghost use Rattle.book.specs.Book.{most_items, no_item, no_book};
ghost use Rattle.book.specs.Open.{good_item, good_items, good_opening, opened_item};
ghost use Rattle.book.specs.Openings.{openings_of, opened_rows};

use crate::records::RESTING;
use crate::sound::good_counts;
use crate::tables::{DISTRICTS, FREE, ITEMS};
use crate::{Book, Item, Opening};
use conditions::{PLACES, TransactionNumber};
use polyvalues::{Polyvalue, in_range};

// The first `count` items count.
// kept: fixed memory is a rule of the project, and `opened_rows` speaks of a count past the rows.
#[derive(Clone, Copy)]
pub struct Openings {
    pub count: usize,
    pub items: [Opening; ITEMS],
}

// The row of an item that holds zeros.
fn zero_item() -> Item
    ensures { result ≡ no_item }
{
    let zero = Polyvalue::nothing();
    Item {
        district: 0,
        held: zero,
        pending: zero,
    }
}

// The all-zero book.
pub fn zero_book() -> Book
    ensures { result ≡ no_book places }
{
    Book {
        last: TransactionNumber(0),
        districts: 0,
        records: [RESTING; DISTRICTS],
        count: 0,
        items: [zero_item(); ITEMS],
        open: [FREE; PLACES],
    }
}

impl Opening {
    // Whether it is in one of the districts and has a value in range.
    fn is_good(self, districts: usize) -> bool
        ensures { result ≡ good_item districts self }
    {
        usize::from(self.district) < districts && in_range(i32::from(self.value))
    }

    // The item when its book is opened.
    fn opened(self) -> Item
        ensures { result ≡ opened_item places self }
    {
        let certain = Polyvalue::certain(self.value);
        Item {
            district: self.district,
            held: certain,
            pending: certain,
        }
    }
}

impl Openings {
    // The items that count: any count may be handed in.
    fn items(&self) -> &[Opening]
        ensures { result.now ≡ openings_of self.now }
    {
        &self.items[..self.count.min(ITEMS)]
    }

    // Whether each item is good.
    fn are_good(self, districts: usize) -> bool
        ensures { result ≡ good_items districts (openings_of self) }
    {
        self.items().iter().all(|x| x.is_good(districts))
    }

    // Whether they and the count of districts open a book.
    fn open_a_book(self, districts: usize) -> bool
        ensures { result ≡ good_opening districts (openings_of self) }
    {
        good_counts(districts, self.items().len()) && self.are_good(districts)
    }

    // The rows of items of the book.
    fn rows(self) -> [Item; ITEMS]
        ensures { result ≡ map (opened_item places) (openings_of self) ++ replicate (most_items - length (openings_of self)) no_item }
    {
        let mut rows = [zero_item(); ITEMS];
        let items = self.items();
        for (i, x) in items.iter().enumerate() {
            rows[i] = x.opened();
        }
        rows
    }
}

// The book of these districts and items, or the all-zero book where they open none.
// kept: what may not change: `opened_rows` (law `too_many_rows`) and 01 give the all-zero book, and no refusal.
pub fn opened(districts: usize, items: Openings) -> Book
    ensures { result ≡ opened_rows places districts items }
{
    if ITEMS < items.count {
        return zero_book();
    }
    if !items.open_a_book(districts) {
        return zero_book();
    }
    Book {
        districts,
        count: items.count,
        items: items.rows(),
        ..zero_book()
    }
}
