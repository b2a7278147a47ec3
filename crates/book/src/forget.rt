// Forgetting, at the end of each accepted event.
ghost use Rattle.std.specs.Prelude.{◌≡◌, ℕ, ◌<◌, ◌≤◌};
ghost use Rattle.conditions.specs.Places.{places as place_count};
ghost use Rattle.book.specs.declared.Book.{Book};
ghost use Rattle.book.specs.Book.{most_districts, most_items, some_depends};
ghost use Rattle.conditions.specs.Sets.{member};
ghost use Rattle.book.specs.Rows.{rows};
ghost use Rattle.book.specs.Forget.{kept, remembered, forget};
ghost use Rattle.book.specs.Tables.{TablesOf};

use crate::sets::has;
use crate::tables::{FREE, Tables, places_of, some_on};
use crate::{Book, Open};
use conditions::PLACES;

impl Tables {
    // Those of a book whose items depend on these places.
    // kept: what may not change: an unsound book may be handed in: the bound of `Tables` begins here.
    pub(crate) fn of(b: &Book, depended: u8) -> Tables
        requires { b.now.districts ≤ most_districts }
        ensures { ((q : ℕ) → q < place_count → member depended q ≡ some_depends place_count b.now q) → TablesOf place_count b.now result }
    {
        Tables {
            last: b.last,
            districts: b.districts,
            records: b.records,
            open: b.open,
            depended,
        }
    }
}

// Whether the transaction at a place stays: it is not decided, or has a district on it or a polyvalue
// that depends on it.
pub(crate) fn is_kept(t: Tables, q: usize, o: Open) -> bool
    requires { q < place_count }
    ensures { (b : Book) → TablesOf place_count b t → result ≡ kept place_count b q o }
{
    if !o.is_decided() {
        return true;
    }
    some_on(&t.records[..t.districts], o.number) || has(t.depended, q)
}

// What a place holds afterwards: a transaction that does not stay is closed.
fn remembered(t: Tables, q: usize, o: Open) -> Open
    requires { q < place_count }
    ensures { (b : Book) → TablesOf place_count b t → result ≡ remembered place_count b q o }
{
    if is_kept(t, q, o) { o } else { FREE }
}

// Each place so.
fn remembered_places(t: Tables) -> [Open; PLACES]
    ensures { (b : Book) → TablesOf place_count b t → result ≡ rows (remembered place_count b) place_count t.«open» }
{
    let mut places = t.open;
    for (q, o) in places.iter_mut().enumerate() {
        *o = remembered(t, q, *o);
    }
    places
}

// The book with each such place freed.
// kept: what may not change: an unsound book may be handed in (refusals, "33 items"): no invariant on its count.
pub(crate) fn forget(mut b: Book) -> Book
    requires { (b.districts ≤ most_districts) × (b.count ≤ most_items) }
    ensures { result ≡ forget place_count b }
{
    let mut depended = 0;
    for x in &b.items[..b.count] {
        depended |= places_of(*x);
    }
    b.open = remembered_places(Tables::of(&b, depended));
    b
}
