// The refusals that no sheet reaches: each is asked for, and its number printed.
//
// A sheet cannot hand in a book that is not sound (15) or a short buffer (16), nor come to the last
// number (7), nor ask a list of pairs (2). What stands in `stdout` is what must come out.
#![tactic(auto)]

use book::Book;
use std::fmt;

mod asked;
mod damage;
mod morning;
mod numbers;
mod polyvalue;
mod print;
mod short;

// Asks for all of them.
fn asked_for(b: Book) -> fmt::Result {
    damage::counts(b)?;
    damage::items(b)?;
    damage::records(b)?;
    damage::places(b)?;
    damage::sets(b)?;
    polyvalue::damage(b)?;
    short::buffers(b)?;
    numbers::last(b)?;
    asked::lists()
}

fn main() {
    let _ = asked_for(morning::book());
}
