// Whether an item of a book is sound: its polyvalues, and what it depends on.
ghost use Rattle.std.specs.Prelude.{◌≡◌, not, ◌&&◌, leb};
ghost use Rattle.std.specs.List.{list_all};
ghost use Rattle.conditions.specs.Sets.{set_of};
ghost use Rattle.conditions.specs.Places.{places as place_count};
ghost use Rattle.polyvalues.specs.Polyvalues.{most_pairs, in_use, sound as sound_polyvalue};
ghost use Rattle.polyvalues.specs.Operations.{together};
ghost use Rattle.book.specs.Book.{no_item, place_of, item_depends};
ghost use Rattle.book.specs.SoundTest.{same_polyvalue, same_item, sound_row};

use crate::sets::has;
use crate::tables::{district_on, place_of};
use crate::{Book, Item};
use conditions::TransactionNumber;
use polyvalues::{PAIRS, Polyvalue};

// Whether two polyvalues are the same, rows past the count too.
// kept: docs/PROMISES.md names `Polyvalue::same` for "pending equals held"; `==` would pass it by.
fn same_polyvalue(mut q: Polyvalue, mut other: Polyvalue) -> bool
    ensures { result ≡ same_polyvalue q other }
{
    if q.count != other.count {
        return false;
    }
    q.count = PAIRS;
    other.count = PAIRS;
    q.same(other)
}

// Whether an item holds zeros.
// kept: no `==` with a zero item: `is_nothing` has no branch for each row (docs/DECISIONS.md).
fn zero_row(x: Item) -> bool
    ensures { result ≡ same_item x no_item }
{
    if x.district != 0 {
        return false;
    }
    x.held.is_nothing() && x.pending.is_nothing()
}

// Whether each of these items does.
pub(crate) fn zero_rows(rows: &[Item]) -> bool
    ensures { result ≡ list_all (λ x. same_item x no_item) rows.now }
{
    rows.iter().all(|x| zero_row(*x))
}

// Whether an item of an idle district is sound: pending equals held, and so one look at held tells of
// both.
fn sound_idle(x: Item) -> bool
    ensures { result ≡ (sound_polyvalue place_count x.held && same_polyvalue x.pending x.held) }
{
    x.held.is_sound() && same_polyvalue(x.pending, x.held)
}

// Whether an item of a district that is on the transaction number n is sound: that transaction's place
// is none of those that it depends on, its places.
fn sound_taken(b: &Book, n: TransactionNumber, x: Item, its: u8) -> bool
    ensures { its ≡ set_of place_count (item_depends place_count x) → result ≡ (sound_polyvalue place_count x.held && sound_polyvalue place_count x.pending && not (item_depends place_count x (place_of place_count b.now n.0)) && leb (together (in_use x.held) (in_use x.pending)) most_pairs) }
{
    if !x.held.is_sound() {
        return false;
    }
    if !x.pending.is_sound() {
        return false;
    }
    if place_of(b.open, n).is_some_and(|q| has(its, q)) {
        return false;
    }
    x.held.together(x.pending) <= PAIRS
}

// Whether an item below the count, which depends on its places, is sound.
pub(crate) fn sound_row(b: &Book, x: Item, its: u8) -> bool
    ensures { its ≡ set_of place_count (item_depends place_count x) → result ≡ sound_row place_count b.now x }
{
    if b.districts <= usize::from(x.district) {
        return false;
    }
    let n = district_on(b.records, x.district);
    if n.0 == 0 {
        sound_idle(x)
    } else {
        sound_taken(b, n, x, its)
    }
}
