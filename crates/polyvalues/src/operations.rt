// What hearing, giving up and beginning do to a polyvalue.
ghost use Rattle.std.specs.Prelude.{◌≡◌, ℕ, ◌^◌, ◌<◌};
ghost use Rattle.conditions.specs.Places.{places};
ghost use Rattle.conditions.specs.Conditions.{number};
ghost use Rattle.conditions.specs.declared.condition.Condition.{Condition};
ghost use Rattle.conditions.specs.Sets.{set_of};
ghost use Rattle.polyvalues.specs.Pairs.{depends, applying};
ghost use Rattle.polyvalues.specs.Polyvalues.{in_use, packed, fitting, fitted};
ghost use Rattle.polyvalues.specs.Simplify.{join, simplified_from};
ghost use Rattle.polyvalues.specs.Operations.{changed, reduce, select};

use crate::polyvalue::{NinthValue, Pair, Polyvalue};
use crate::rows::with_pair;
use conditions::{Condition, Place};

impl Polyvalue {
    // The value under the condition joined into the polyvalue.
    pub fn join(self, value: i16, condition: Condition) -> Result<Polyvalue, NinthValue>
        ensures { result ≡ fitted self (join places value (number condition) (in_use self)) }
    {
        let new = Pair { value, condition };
        with_pair(self.tidied(), new).ok_or(NinthValue(self))
    }
}

// The rows joined one after the other, each with its condition cut, if there is room for them.
fn join_rows<F: Fn(Condition) -> Condition>(
    start: Polyvalue,
    rows: Polyvalue,
    cut: F,
) -> Option<Polyvalue>
    requires start_tidy { start ≡ packed (in_use start) }
    requires callable { F.IsAlwaysCallable cut }
    ensures { (f : ℕ → ℕ) → ((c d : Condition) → number c < 2 ^ 2 ^ places → F.post cut c d → number d ≡ f (number c)) → result ≡ fitting (simplified_from places (in_use start) (changed f (in_use rows))) }
{
    let mut done = start;
    for i in 0..rows.len() {
        let row = rows.row(i);
        let condition = cut(row.condition);
        let new = Pair {
            value: row.value,
            condition,
        };
        done = with_pair(done, new)?;
    }
    Some(done)
}

impl Polyvalue {
    // Its value under an assignment is the old one with the place set to the outcome.
    pub fn reduce(self, place: Place, outcome: bool) -> Polyvalue
        ensures { result ≡ packed (reduce places place.0 outcome (in_use self)) }
    {
        join_rows(Polyvalue::nothing(), self, |c| c.reduce(place, outcome)).unwrap()
    }

    // One polyvalue where the place is completed, another where it is aborted; where there is no room
    // for both, the error gives back the latter.
    pub fn select(place: Place, done: Polyvalue, gone: Polyvalue) -> Result<Polyvalue, NinthValue>
        ensures { result ≡ fitted gone (select places place.0 (in_use done) (in_use gone)) }
    {
        let completed = |c| Condition::select(place, c, Condition::EMPTY);
        let aborted = |c| Condition::select(place, Condition::EMPTY, c);
        let first = join_rows(Polyvalue::nothing(), done, completed).unwrap();
        join_rows(first, gone, aborted).ok_or(NinthValue(gone))
    }

    // Whether one of its conditions depends on the place.
    pub fn depends(self, place: Place) -> bool
        ensures { result ≡ depends places (in_use self) place.0 }
    {
        self.conditions[..self.len()]
            .iter()
            .any(|c| c.depends(place))
    }

    // The set of the places that one of its conditions depends on.
    pub fn places(self) -> u8
        ensures { result ≡ set_of places (depends places (in_use self)) }
    {
        let mut set: u8 = 0;
        for c in &self.conditions[..self.len()] {
            set |= c.places();
        }
        set
    }

    // The first pair that applies under the assignment, or a row of zeros where none does.
    // kept: no Option: the definition `Pairs.applying` gives the row of zeros where none applies.
    pub fn applying(self, assignment: usize) -> Pair
        ensures { result ≡ applying (in_use self) assignment }
    {
        let first = self.conditions[..self.len()]
            .iter()
            .position(|c| c.contains(assignment));
        match first {
            Some(i) => self.row(i),
            None => Pair::ZERO,
        }
    }
}
