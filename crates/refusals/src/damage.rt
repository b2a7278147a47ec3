// One damaged field for each clause of "Sound books" (document 01): every call answers 15.
//
// That no number given exceeds 65,535 cannot be damaged: it is what the field can hold.
use crate::polyvalue::{eight_values, two_values};
use crate::print::answers;
use book::{Book, Item, Open, Record};
use conditions::TransactionNumber;
use polyvalues::Polyvalue;
use std::fmt;

// The rows with another one at an index.
pub(crate) fn with_row<T: Copy, const N: usize>(rows: [T; N], i: usize, row: T) -> [T; N] {
    let mut others = rows;
    if let Some(old) = others.get_mut(i) {
        *old = row;
    }
    others
}

// The book with another record of a district.
fn with_record(b: Book, d: usize, r: Record) -> Book {
    Book {
        records: with_row(b.records, d, r),
        ..b
    }
}

// The book with another item.
fn with_item(b: Book, i: usize, x: Item) -> Book {
    Book {
        items: with_row(b.items, i, x),
        ..b
    }
}

// The book with another transaction at a place.
fn with_open(b: Book, q: usize, o: Open) -> Book {
    Book {
        open: with_row(b.open, q, o),
        ..b
    }
}

// The book with an item changed.
fn with_changed<F: FnOnce(Item) -> Item>(b: Book, i: usize, change: F) -> Book
    requires { F.IsAlwaysCallable change }
{
    match b.items.get(i) {
        Some(x) => with_item(b, i, change(*x)),
        None => b,
    }
}

// The book with another held polyvalue of an item.
pub(crate) fn with_held(b: Book, i: usize, held: Polyvalue) -> Book {
    with_changed(b, i, |x| Item { held, ..x })
}

// The book with another pending polyvalue of an item.
pub(crate) fn with_pending(b: Book, i: usize, pending: Polyvalue) -> Book {
    with_changed(b, i, |x| Item { pending, ..x })
}

// "1 to 8 districts, 1 to 32 items"
pub(crate) fn counts(b: Book) -> fmt::Result {
    answers("sound", b)?;
    let mut a = b;
    a.districts = 0;
    answers("no district", a)?;
    a.districts = 9;
    answers("nine districts", a)?;
    a = b;
    a.count = 0;
    answers("no item", a)?;
    a.count = 33;
    answers("33 items", a)
}

// "Each item belongs to one district", "rows past the counts .. hold zeros", "nothing depends on a free
// place", "in an idle district pending equals held; in a busy one neither depends on its own
// transaction, and held and pending .. have at most 8 different values together"
pub(crate) fn items(b: Book) -> fmt::Result {
    let mut x = b.items[0];
    x.district = 4;
    answers("item of no district", with_item(b, 0, x))?;
    x = b.items[31];
    x.district = 1;
    answers("row past the items", with_item(b, 31, x))?;
    answers("held on a free place", with_held(b, 2, two_values(5)))?;
    answers("pending on a free place", with_pending(b, 2, two_values(5)))?;
    answers(
        "idle, pending not held",
        with_pending(b, 0, Polyvalue::certain(4)),
    )?;
    answers("held on its own", with_held(b, 2, two_values(1)))?;
    answers("pending on its own", with_pending(b, 2, two_values(1)))?;
    answers(
        "eight values together",
        with_pending(with_held(b, 2, Polyvalue::certain(7)), 2, eight_values()),
    )?;
    answers(
        "nine values together",
        with_pending(with_held(b, 2, Polyvalue::certain(8)), 2, eight_values()),
    )
}

// "idle (0), computing (1) or waiting (2)", "rows past the counts .. hold zeros", "an idle record names
// transaction 0", "a busy district is on an open transaction"
pub(crate) fn records(b: Book) -> fmt::Result {
    let first = TransactionNumber(1);
    let not_open = TransactionNumber(9);
    let mut r = b.records[2];
    r.phase = 3;
    answers("phase 3", with_record(b, 2, r))?;
    r = b.records[7];
    r.transaction = first;
    answers("row past the districts", with_record(b, 7, r))?;
    r = b.records[0];
    r.transaction = first;
    answers("idle on a transaction", with_record(b, 0, r))?;
    r = b.records[2];
    r.transaction = not_open;
    answers("busy on none open", with_record(b, 2, r))
}

// "free places hold zeros", "open numbers differ, are at least 1 and none exceeds the last given", "its
// decision (0 none, 1 completed, 2 aborted)", "a decided open transaction has a district on it or a
// polyvalue that depends on its place", "a completed transaction has every touched district ready"
pub(crate) fn places(b: Book) -> fmt::Result {
    let first = TransactionNumber(1);
    let not_given = TransactionNumber(5);
    let mut o = b.open[5];
    o.touched = 1;
    answers("free place not zero", with_open(b, 5, o))?;
    o = b.open[2];
    o.number = first;
    answers("number twice", with_open(b, 2, o))?;
    o.number = not_given;
    answers("number not given", with_open(b, 2, o))?;
    o = b.open[1];
    o.decision = 3;
    answers("decision 3", with_open(b, 1, o))?;
    o = b.open[2];
    o.decision = 2;
    answers("decided and not needed", with_open(b, 2, o))?;
    o = b.open[1];
    o.decision = 1;
    answers("completed, not ready", with_open(b, 1, o))
}

// Districts below the count in each set, "a busy district is on an open transaction that touches it;
// waiting districts are in its ready set, computing ones in neither set; ready and gave-up sets are
// apart and within touched"
pub(crate) fn sets(b: Book) -> fmt::Result {
    let mut o = b.open[2];
    o.touched = 17;
    answers("touched, no district", with_open(b, 2, o))?;
    o = b.open[2];
    o.ready = 16;
    answers("ready, no district", with_open(b, 2, o))?;
    o = b.open[2];
    o.gave = 17;
    answers("gave up, no district", with_open(b, 2, o))?;
    o = b.open[1];
    o.touched = 8;
    answers("busy, not touched", with_open(b, 1, o))?;
    o = b.open[0];
    o.ready = 1;
    answers("waiting, not ready", with_open(b, 0, o))?;
    o = b.open[1];
    o.ready = 4;
    answers("computing, ready", with_open(b, 1, o))?;
    o = b.open[1];
    o.gave = 4;
    answers("computing, gave up", with_open(b, 1, o))?;
    o = b.open[0];
    o.gave = 1;
    answers("ready and gave up", with_open(b, 0, o))?;
    o = b.open[2];
    o.ready = 2;
    answers("ready, not touched", with_open(b, 2, o))?;
    o = b.open[2];
    o.gave = 3;
    answers("gave up, not touched", with_open(b, 2, o))
}
