// Two polyvalues side by side: whether they are the same pairs, and how many values they have
// together.
ghost use Rattle.std.specs.Prelude.{◌≡◌, not, ◌++◌, ◌+◌, ◌<◌, ◌≤◌, suc, length, drop, get_or};
ghost use Rattle.conditions.specs.Sets.{digit};
ghost use Rattle.polyvalues.specs.Pairs.{no_pair};
ghost use Rattle.polyvalues.specs.Polyvalues.{most_pairs, in_use};
ghost use Rattle.polyvalues.specs.Operations.{occurs, different, together, same};

use crate::polyvalue::Polyvalue;
use crate::value::equal;

impl Polyvalue {
    // Whether two polyvalues are the same pairs.
    // kept: the definition is of the rows in use; == compares those past the count too. Inlined, since
    // soundness asks it of every item of an idle district, with counts that are known there.
    #[inline(always)]
    pub fn same(self, other: Polyvalue) -> bool
        ensures { result ≡ same (in_use self) (in_use other) }
    {
        self.values[..self.len()] == other.values[..other.len()]
            && self.conditions[..self.len()] == other.conditions[..other.len()]
    }

    // Whether a row from one on has the value.
    fn occurs(self, value: i16, from: usize) -> bool
        requires { from ≤ length (in_use self) }
        ensures { result ≡ occurs value (drop from (in_use self)) }
    {
        self.values[from..self.len()]
            .iter()
            .any(|v| equal(value, *v))
    }

    // What row i adds to the values of the rows after it and of the other polyvalue: 1 or nothing.
    fn adds(self, i: usize, other: Polyvalue) -> usize
        requires { i < length (in_use self) }
        ensures value { result ≡ digit (not (occurs (get_or (in_use self) i no_pair).value (drop (suc i) (in_use self) ++ in_use other))) }
        ensures upper_bound { result ≤ 1 }
    {
        let row = self.row(i);
        usize::from(!self.occurs(row.value, i + 1) && !other.occurs(row.value, 0))
    }

    // How many values it adds to those of the other polyvalue.
    fn fresh(self, other: Polyvalue) -> usize
        ensures other_value { result + different (in_use other) ≡ together (in_use self) (in_use other) }
        ensures upper_bound { result ≤ most_pairs }
    {
        let mut count: usize = 0;
        for i in 0..self.len() {
            count += self.adds(i, other);
        }
        count
    }

    // How many different values two polyvalues have together.
    pub fn together(self, other: Polyvalue) -> usize
        ensures { result ≡ together (in_use self) (in_use other) }
    {
        self.fresh(other) + other.fresh(Polyvalue::nothing())
    }
}
