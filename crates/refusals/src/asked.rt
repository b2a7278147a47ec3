// 2: a list of pairs is refused if the assignment's number is over 63, or unless exactly one pair
// applies.
use crate::print::Output;
use conditions::{ASSIGNMENTS, Condition, Place};
use polyvalues::Polyvalue;
use std::fmt::{self, Write};

// Asks the pairs for their value under the assignment.
fn value_under(p: Polyvalue, assignment: usize) -> fmt::Result {
    let number = match p.value_under(assignment) {
        Some(_) => 0,
        None => 2,
    };
    writeln!(Output, "pairs {} {assignment} {number}", p.count)
}

// Lists in which one pair applies, none or two, and numbers past the last assignment.
pub(crate) fn lists() -> fmt::Result {
    let done = Condition::completed(Place(0));
    let mut p = Polyvalue::certain(5);
    value_under(p, ASSIGNMENTS - 1)?;
    value_under(p, ASSIGNMENTS)?;
    p.values[1] = 4;
    p.conditions[1] = done;
    p.count = 2;
    value_under(p, 0)?;
    value_under(p, 1)?;
    p.values[0] = 4;
    p.conditions[0] = done;
    p.count = 1;
    value_under(p, 0)?;
    value_under(p, 1)?;
    p.count = 0;
    value_under(p, 0)
}
