// Whether a polyvalue that is handed in is one: the paragraph of document 01, in one pass over its
// rows.
ghost use Rattle.std.specs.Prelude.{◌≡◌, ◌&&◌, ◌≤◌, eqb};
ghost use Rattle.conditions.specs.Places.{places};
ghost use Rattle.conditions.specs.Conditions.{number};
ghost use Rattle.polyvalues.specs.Values.{in_range};
ghost use Rattle.polyvalues.specs.Pairs.{blank};
ghost use Rattle.polyvalues.specs.Polyvalues.{each, most_pairs, rows_of, in_use, tidy, sound};
ghost use Rattle.polyvalues.specs.Checked.{row_fits, checked_from, below_all};

use crate::polyvalue::{PAIRS, Pair, Polyvalue};
use crate::value::{below, in_range};
use conditions::Condition;

impl Pair {
    // Whether the row holds zeros.
    // kept: no plainer as == at both loops, which ask the definition `blank` by this contract.
    fn is_blank(self) -> bool
        ensures { result ≡ blank self }
    {
        self == Pair::ZERO
    }

    // Whether its value may be one.
    fn in_range(self) -> bool
        ensures { result ≡ in_range self.value }
    {
        in_range(i32::from(self.value))
    }

    // Whether it may follow a row, where the conditions before it are covered.
    fn follows(self, row: Pair, covered: Condition) -> bool
        ensures { result ≡ row_fits places row.value (number covered) self }
    {
        below(row.value, self.value)
            && self.in_range()
            && !self.condition.is_empty()
            && covered.intersection(self.condition).is_empty()
    }
}

impl Polyvalue {
    // Whether the rows past the count hold zeros.
    // kept: what may not change: any count may be handed in (refusals, "nine pairs"): no invariant on it.
    fn is_tidy(self) -> bool
        requires { self.count ≤ most_pairs }
        ensures { result ≡ tidy self }
    {
        for i in self.count..PAIRS {
            let row = self.row(i);
            if !row.is_blank() {
                return false;
            }
        }
        true
    }

    // Whether it is the polyvalue of no pairs, all its rows zero.
    // kept: by hand, docs/DECISIONS.md: without a branch for each row, which == and `is_tidy` have.
    pub fn is_nothing(self) -> bool
        ensures { result ≡ (eqb self.count 0 && each blank (rows_of self)) }
    {
        let mut none = self.count == 0;
        for i in 0..PAIRS {
            let row = self.row(i);
            none &= row.is_blank();
        }
        none
    }

    // Whether each row in use may follow the one before it, and together they cover all.
    fn is_checked(self) -> bool
        ensures { result ≡ checked_from places below_all 0 (in_use self) }
    {
        // kept: no Option for no row yet: the definition `Checked.below_all` is -10,000, below every value.
        let mut last = Pair {
            value: -10000,
            condition: Condition::EMPTY,
        };
        let mut covered = Condition::EMPTY;
        for i in 0..self.len() {
            let row = self.row(i);
            if !row.follows(last, covered) {
                return false;
            }
            covered = covered.union(row.condition);
            last = row;
        }
        covered.same(Condition::FULL)
    }

    // Whether it is a polyvalue: 1 to 8 pairs, values strictly rising, no condition empty, each
    // assignment in exactly one condition, the rows past the count zero.
    pub fn is_sound(self) -> bool
        ensures { result ≡ sound places self }
    {
        self.count <= PAIRS && self.is_tidy() && self.is_checked()
    }
}
