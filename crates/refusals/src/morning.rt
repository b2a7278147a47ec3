// A sound book in the middle of a morning, which has something of everything.
use book::{Book, ITEMS, Opening, Openings, opened};
use conditions::TransactionNumber;

// Four districts with an item each: 5, 8, 3 and 7.
fn opening() -> Book {
    let blank = Opening {
        district: 0,
        value: 0,
    };
    let mut items = [blank; ITEMS];
    items[0] = Opening {
        district: 0,
        value: 5,
    };
    items[1] = Opening {
        district: 1,
        value: 8,
    };
    items[2] = Opening {
        district: 2,
        value: 3,
    };
    items[3] = Opening {
        district: 3,
        value: 7,
    };
    opened(4, Openings { count: 4, items })
}

// T1 is completed: district 0 gave up waiting, and its item is 4 or 5; district 1 still waits.
fn first() -> Book {
    let b = opening().begin(b"\x02\x00\xff\xff\x02\x01\x00\x01").book;
    let t = TransactionNumber(1);
    let b = b.ready(t, 0).book;
    let b = b.give_up(t, 0).book;
    let b = b.ready(t, 1).book;
    b.complete(t).book
}

// T2 is computed in district 2 and T4 in district 3; district 0 gave up T3 before it was ready.
pub(crate) fn book() -> Book {
    let b = first().begin(b"\x02\x02\x00\x01").book;
    let b = b.begin(b"\x02\x00\x00\x00").book;
    let b = b.give_up(TransactionNumber(3), 0).book;
    b.begin(b"\x02\x03\x00\x01").book
}
