// What one reads off the tables of a book.
ghost use Rattle.std.specs.Prelude.{◌≡◌, true, false, not, ℕ, ◌≤◌, eqb, get_or};
ghost use Rattle.std.specs.List.{list_any};
ghost use Rattle.conditions.specs.Below.{first};
ghost use Rattle.conditions.specs.Places.{places as place_count};
ghost use Rattle.conditions.specs.Sets.{set_of};
ghost use Rattle.polyvalues.specs.Pairs.{depends};
ghost use Rattle.polyvalues.specs.Polyvalues.{in_use};
ghost use Rattle.book.specs.Found.{found};
ghost use Rattle.book.specs.Book.{
  most_districts,
  no_record,
  no_open,
  record_on,
  is_open,
  named,
  item_depends,
};

use crate::records::IDLE;
use crate::{Item, Open, Record};
use conditions::{Condition, PLACES, Place, TransactionNumber};
use polyvalues::Polyvalue;

// How many districts and items a book has room for.
pub const DISTRICTS: usize = 8;

pub const ITEMS: usize = 32;

// A free place.
pub(crate) const FREE: Open = Open {
    number: TransactionNumber(0),
    touched: 0,
    ready: 0,
    gave: 0,
    decision: 0,
};

// All of a book but its items, and the set of the places that these depend on: what the tests of a
// place and forgetting ask of a book, without the items themselves.
#[derive(Clone, Copy)]
pub struct Tables {
    pub last: TransactionNumber,
    pub districts: usize,
    pub records: [Record; DISTRICTS],
    pub open: [Open; PLACES],
    pub depended: u8,
    ghost few: { districts ≤ most_districts },
}

// The number of the transaction that a district with this record is on, 0 where it is idle.
// kept: no Option: `Book.record_on` is 0 for none, and `some_on`, `concerned` compare that with 0 too.
pub(crate) fn record_on(r: Record) -> TransactionNumber
    ensures { result.0 ≡ record_on r }
{
    if r.phase == IDLE {
        TransactionNumber(0)
    } else {
        r.transaction
    }
}

// The number of the transaction that the items of a district are on.
pub(crate) fn district_on(records: [Record; DISTRICTS], district: u8) -> TransactionNumber
    ensures { result.0 ≡ record_on (get_or records district no_record) }
{
    records
        .get(usize::from(district))
        .map_or(TransactionNumber(0), |r| record_on(*r))
}

// Whether a district with one of these records is on the transaction.
pub(crate) fn some_on(records: &[Record], n: TransactionNumber) -> bool
    ensures { result ≡ list_any (λ r. eqb (record_on r) n.0) records.now }
{
    records.iter().any(|r| record_on(*r) == n)
}

// Whether the transaction at a place has the number.
fn is_named(o: Open, n: TransactionNumber) -> bool
    ensures { result ≡ named n.0 o }
{
    o.number.0 != 0 && o.number == n
}

// The place of the open transaction with the number.
pub(crate) fn place_of(places: [Open; PLACES], n: TransactionNumber) -> Option<usize>
    ensures { result ≡ found place_count (first place_count (λ q. named n.0 (get_or places q no_open))) }
{
    places.iter().position(|o| is_named(*o, n))
}

// The lowest free place.
pub(crate) fn free_place(places: [Open; PLACES]) -> Option<usize>
    ensures { result ≡ found place_count (first place_count (λ q. not (is_open (get_or places q no_open)))) }
{
    places.iter().position(|o| o.number.0 == 0)
}

// Whether the item's held or pending polyvalue depends on the place.
pub(crate) fn item_depends(x: Item, q: Place) -> bool
    ensures { result ≡ item_depends place_count x q.0 }
{
    x.held.depends(q) || x.pending.depends(q)
}

// Whether it is one pair that always applies: such a polyvalue depends on no place.
fn is_certain(p: Polyvalue) -> bool
    ensures { result ≡ true → (q : ℕ) → depends place_count (in_use p) q ≡ false }
{
    p.count == 1 && p.conditions[0].same(Condition::FULL)
}

// Whether both of the item's are.
fn is_sure(x: Item) -> bool
    ensures { result ≡ true → (q : ℕ) → item_depends place_count x q ≡ false }
{
    is_certain(x.held) && is_certain(x.pending)
}

// The set of the places that the item depends on.
pub(crate) fn places_of(x: Item) -> u8
    ensures { result ≡ set_of place_count (item_depends place_count x) }
{
    if is_sure(x) {
        return 0;
    }
    x.held.places() | x.pending.places()
}
