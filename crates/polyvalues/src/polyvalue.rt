// Pairs of value and condition, and the polyvalue as the code keeps it.
ghost use Rattle.std.specs.Prelude.{◌≡◌, [], ◌≤◌, ◌<◌, length, get_or};
ghost use Rattle.conditions.specs.Places.{places};
ghost use Rattle.polyvalues.specs.Pairs.{no_pair, certain};
ghost use Rattle.polyvalues.specs.Polyvalues.{most_pairs, rows_of, in_use, packed};

use conditions::Condition;

// How many pairs a polyvalue has room for.
pub const PAIRS: usize = 8;

// A value and the condition under which it applies.
#[derive(Clone, Copy, Debug, PartialEq, Eq)]
pub struct Pair {
    pub value: i16,
    pub condition: Condition,
}

// The first `count` rows count; the rows past them are zero. A row is a value and the condition at
// the same index: in arrays of their own they need no padding, and rows of zeros are told at once.
// kept: two arrays, docs/DECISIONS.md: as pairs a polyvalue is 136 bytes and not 88, and books slower.
#[derive(Clone, Copy, Debug, PartialEq, Eq)]
pub struct Polyvalue {
    pub count: usize,
    pub values: [i16; PAIRS],
    pub conditions: [Condition; PAIRS],
}

// Why nothing could be joined into a polyvalue: there is no room for a ninth value. The polyvalue, as
// it was.
#[derive(Clone, Copy, Debug, PartialEq, Eq)]
pub struct NinthValue(pub Polyvalue);

impl Pair {
    // A row that holds zeros.
    pub(crate) const ZERO: Pair = Pair {
        value: 0,
        condition: Condition::EMPTY,
    };
}

impl Polyvalue {
    // The pair of row i.
    // kept: no plainer as `zip` of both arrays in each loop, which would put the `Pair` together there again.
    pub(crate) fn row(self, i: usize) -> Pair
        requires { i < most_pairs }
        ensures { result ≡ get_or (rows_of self) i no_pair }
    {
        Pair {
            value: self.values[i],
            condition: self.conditions[i],
        }
    }

    // How many rows are in use: any count may be handed in.
    pub(crate) fn len(self) -> usize
        ensures value { result ≡ length (in_use self) }
        ensures upper_bound { result ≤ most_pairs }
    {
        self.count.min(PAIRS)
    }

    // The rows past those in use set to zero.
    pub(crate) fn tidied(self) -> Polyvalue
        ensures { result ≡ packed (in_use self) }
    {
        let n = self.len();
        let mut values = self.values;
        let mut conditions = self.conditions;
        values[n..].fill(0);
        conditions[n..].fill(Condition::EMPTY);
        Polyvalue {
            count: n,
            values,
            conditions,
        }
    }

    // No pairs: others are joined into it, and rows past a book's counts hold it.
    pub fn nothing() -> Polyvalue
        ensures { result ≡ packed [] }
    {
        Polyvalue {
            count: 0,
            values: [0; PAIRS],
            conditions: [Condition::EMPTY; PAIRS],
        }
    }

    // One pair that always applies.
    pub fn certain(value: i16) -> Polyvalue
        ensures { result ≡ packed (certain places value) }
    {
        let mut q = Polyvalue::nothing();
        q.count = 1;
        q.values[0] = value;
        q.conditions[0] = Condition::FULL;
        q
    }
}
