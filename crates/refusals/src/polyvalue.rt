// "A polyvalue is 1 to 8 pairs of value and condition, values strictly rising, no condition empty, each
// assignment in exactly one condition": one damaged field for each clause, in a held polyvalue.
use crate::damage::{with_held, with_pending, with_row};
use crate::print::answers;
use book::Book;
use conditions::{Condition, Place};
use polyvalues::{NinthValue, Polyvalue};
use std::fmt;

// The first values where the place completes, the second where it aborts.
fn either(place: usize, done: Polyvalue, gone: Polyvalue) -> Polyvalue {
    match Polyvalue::select(Place(place), done, gone) {
        Ok(both) => both,
        Err(NinthValue(gone)) => gone,
    }
}

// 0 where the place completes, 3 where it aborts.
pub(crate) fn two_values(place: usize) -> Polyvalue {
    either(place, Polyvalue::certain(0), Polyvalue::certain(3))
}

// 0 to 7, under the places 0, 2 and 3.
pub(crate) fn eight_values() -> Polyvalue {
    let low = either(
        2,
        either(0, Polyvalue::certain(0), Polyvalue::certain(1)),
        either(0, Polyvalue::certain(2), Polyvalue::certain(3)),
    );
    let high = either(
        2,
        either(0, Polyvalue::certain(4), Polyvalue::certain(5)),
        either(0, Polyvalue::certain(6), Polyvalue::certain(7)),
    );
    either(3, low, high)
}

// The polyvalue with another pair.
fn with_pair(p: Polyvalue, i: usize, value: i16, condition: Condition) -> Polyvalue {
    Polyvalue {
        values: with_row(p.values, i, value),
        conditions: with_row(p.conditions, i, condition),
        ..p
    }
}

// Each clause of the sentence in its turn.
pub(crate) fn damage(b: Book) -> fmt::Result {
    let good = two_values(0);
    let done = Condition::completed(Place(0));
    let gone = done.complement();
    answers("two pairs", with_held(b, 2, good))?;
    let mut p = good;
    p.count = 0;
    answers("no pair", with_held(b, 2, p))?;
    p.count = 9;
    answers("nine pairs", with_held(b, 2, p))?;
    answers(
        "value too high",
        with_held(b, 2, with_pair(good, 1, 10000, gone)),
    )?;
    answers(
        "value too low",
        with_held(b, 2, with_pair(good, 0, -10000, done)),
    )?;
    answers(
        "values not rising",
        with_held(b, 2, with_pair(good, 0, 3, done)),
    )?;
    let mut empty = with_pair(Polyvalue::certain(0), 1, 3, Condition::EMPTY);
    empty.count = 2;
    answers("condition empty", with_held(b, 2, empty))?;
    answers(
        "in no condition",
        with_held(b, 2, with_pair(good, 0, 0, Condition::EMPTY)),
    )?;
    answers(
        "in two conditions",
        with_held(b, 2, with_pair(good, 0, 0, Condition::FULL)),
    )?;
    answers(
        "row past the pairs",
        with_held(b, 2, with_pair(good, 7, 1, Condition::EMPTY)),
    )?;
    answers("pending, no pair", with_pending(b, 2, p))
}
