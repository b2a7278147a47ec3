// What events do to one item.
ghost use Rattle.std.specs.Prelude.{◌≡◌, cond, ◌≤◌};
ghost use Rattle.conditions.specs.Places.{places};
ghost use Rattle.polyvalues.specs.Polyvalues.{most_pairs, in_use};
ghost use Rattle.polyvalues.specs.Operations.{together};
ghost use Rattle.book.specs.declared.Book.{Book};
ghost use Rattle.book.specs.Items.{concerned, install, drop, split, reduce_item};
ghost use Rattle.book.specs.GiveUp.{give_up_item};
ghost use Rattle.book.specs.Hear.{hear_item};

use crate::site::Site;
use crate::tables::{DISTRICTS, district_on};
use crate::{Item, Record};
use conditions::Place;
use polyvalues::Polyvalue;

// Whether the item is in the district and on the transaction.
// kept: no plainer with a `&Book`: its items are lent to be changed (`&mut b.items`) while records are read.
fn is_concerned(x: Item, records: [Record; DISTRICTS], at: Site) -> bool
    ensures { (b : Book) → b.records ≡ records → result ≡ concerned b at.number.0 at.district x }
{
    x.district == at.district && district_on(records, x.district) == at.number
}

// Pending is held.
fn installed(x: Item) -> Item
    ensures { result ≡ install x }
{
    Item {
        held: x.pending,
        ..x
    }
}

// Pending is dropped.
fn dropped(x: Item) -> Item
    ensures { result ≡ drop x }
{
    Item {
        pending: x.held,
        ..x
    }
}

// Pending where the transaction at the place completes, held where it aborts.
fn split(x: Item, q: Place) -> Item
    requires { together (in_use x.pending) (in_use x.held) ≤ most_pairs }
    ensures { result ≡ split places q.0 x }
{
    let both = Polyvalue::select(q, x.pending, x.held).unwrap();
    Item {
        held: both,
        pending: both,
        ..x
    }
}

// Both with the place set to the outcome.
fn reduced(x: Item, q: Place, outcome: bool) -> Item
    ensures { result ≡ reduce_item places q.0 outcome x }
{
    Item {
        held: x.held.reduce(q, outcome),
        pending: x.pending.reduce(q, outcome),
        ..x
    }
}

// Where the item is concerned, pending is held or is dropped.
fn settled(x: Item, records: [Record; DISTRICTS], at: Site, completed: bool) -> Item
    ensures { (b : Book) → b.records ≡ records → result ≡ cond (concerned b at.number.0 at.district x) (cond completed (install x) (drop x)) x }
{
    if !is_concerned(x, records, at) {
        return x;
    }
    if completed { installed(x) } else { dropped(x) }
}

// The item when the district hears the outcome of the transaction at the place.
pub(crate) fn heard(x: Item, records: [Record; DISTRICTS], at: Site, completed: bool) -> Item
    ensures { (b : Book) → b.records ≡ records → result ≡ hear_item places b at.number.0 at.district at.place.0 completed x }
{
    if x.district != at.district {
        return x;
    }
    reduced(settled(x, records, at, completed), at.place, completed)
}

// The item when the district gives up on it, from computing or from waiting.
pub(crate) fn given_up(x: Item, records: [Record; DISTRICTS], at: Site, computing: bool) -> Item
    requires { together (in_use x.pending) (in_use x.held) ≤ most_pairs }
    ensures { (b : Book) → b.records ≡ records → result ≡ give_up_item places b at.number.0 at.district at.place.0 computing x }
{
    if !is_concerned(x, records, at) {
        return x;
    }
    if computing {
        dropped(x)
    } else {
        split(x, at.place)
    }
}
