// 7: number 65,535 has been given. 3, 2, 5 and 6 come before it, 8 after it.
use crate::damage::{with_held, with_pending};
use crate::polyvalue::eight_values;
use crate::print::{Numbers, Output};
use book::Book;
use conditions::TransactionNumber;
use std::fmt::{self, Write};

// Begins the program, where this number is the last given, and prints the answer, the number and the grant.
fn begun_after(b: Book, last: u16, program: &[u8]) -> fmt::Result {
    let mut a = b;
    a.last = TransactionNumber(last);
    let r = a.begin(program);
    writeln!(
        Output,
        "last {last}{} {} {}",
        Numbers([r.answer]),
        r.number.0,
        r.grant
    )
}

// Asks where the last number is not yet, and where it is given.
pub(crate) fn last(b: Book) -> fmt::Result {
    begun_after(b, 65534, b"\x02\x00\x00\x01")?;
    begun_after(b, 65535, b"\x02\x00\x00\x01")?;
    begun_after(b, 65535, b"\x05\x00\x00\x01")?;
    begun_after(b, 65535, b"\x02\x04\x00\x01")?;
    begun_after(b, 65535, b"\x02\x02\x00\x01")?;
    let many = with_pending(with_held(b, 0, eight_values()), 0, eight_values());
    begun_after(many, 65534, b"\x02\x00\x00\x01")?;
    begun_after(many, 65535, b"\x02\x00\x00\x01")?;
    let five = b.begin(b"\x02\x00\x00\x00").book;
    let idle = five.give_up(TransactionNumber(5), 0).book;
    let six = idle.begin(b"\x02\x00\x00\x00").book;
    let full = six.give_up(TransactionNumber(6), 0).book;
    begun_after(full, 65535, b"\x02\x00\x00\x01")
}
