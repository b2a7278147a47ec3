// A list of pairs is asked for its value under one assignment: that of the pair that applies, if
// exactly one does.
ghost use Rattle.std.specs.Prelude.{◌≡◌};
ghost use Rattle.conditions.specs.Places.{places};
ghost use Rattle.polyvalues.specs.Pairs.{asked};
ghost use Rattle.polyvalues.specs.Polyvalues.{in_use};

use crate::{Pair, Polyvalue};
use conditions::ASSIGNMENTS;

// The value of a lent list of pairs under the assignment.
pub fn value_under(pairs: &[Pair], assignment: usize) -> Option<i16>
    ensures { result ≡ asked places pairs.now assignment }
{
    if ASSIGNMENTS <= assignment {
        return None;
    }
    let mut found = None;
    for pair in pairs {
        if pair.condition.contains(assignment) {
            if found.is_some() {
                return None;
            }
            found = Some(pair.value);
        }
    }
    found
}

impl Polyvalue {
    // The same of its own pairs. Code that has a polyvalue calls this one.
    // kept: no plainer as one: a polyvalue has no pairs to lend (docs/DECISIONS.md), 01 asks for a slice.
    pub fn value_under(self, assignment: usize) -> Option<i16>
        ensures { result ≡ asked places (in_use self) assignment }
    {
        if ASSIGNMENTS <= assignment {
            return None;
        }
        let mut found = None;
        for i in 0..self.len() {
            let pair = self.row(i);
            if pair.condition.contains(assignment) {
                if found.is_some() {
                    return None;
                }
                found = Some(pair.value);
            }
        }
        found
    }
}
