// A set of assignments, one bit for each.
ghost use Rattle.std.specs.Prelude.{◌≡◌, eqb};
ghost use Rattle.conditions.specs.Sets.{member, set_of};
ghost use Rattle.conditions.specs.Places.{places};
ghost use Rattle.conditions.specs.Conditions.{number, union, intersection, complement, empty, lowest, completed, selected, reduced, depends_on};

use crate::place::{ASSIGNMENTS, PLACES, Place};

// Bit n is 1 where the assignment n is a member.
#[derive(Clone, Copy, Debug, PartialEq, Eq)]
pub struct Condition(pub(crate) u64);

// For each place, the assignments in which it is completed.
const COMPLETED: [u64; PLACES] = [
    0xaaaa_aaaa_aaaa_aaaa,
    0xcccc_cccc_cccc_cccc,
    0xf0f0_f0f0_f0f0_f0f0,
    0xff00_ff00_ff00_ff00,
    0xffff_0000_ffff_0000,
    0xffff_ffff_0000_0000,
];

impl Condition {
    // The condition that always applies, and the one that never does.
    pub const FULL: Condition = Condition(0xffff_ffff_ffff_ffff);

    pub const EMPTY: Condition = Condition(0);

    // Whether the assignment is a member.
    pub fn contains(self, assignment: usize) -> bool
        ensures { result ≡ member (number self) assignment }
    {
        assignment < ASSIGNMENTS && (self.0 >> assignment) & 1 == 1
    }

    // Whether two conditions have the same members.
    // kept: docs/PROMISES.md names it for equality, and soundness goes through its contract.
    pub fn same(self, other: Condition) -> bool
        ensures { result ≡ eqb (number self) (number other) }
    {
        self == other
    }

    // The assignments that are members of one or the other.
    pub fn union(self, other: Condition) -> Condition
        ensures { number result ≡ union places (number self) (number other) }
    {
        Condition(self.0 | other.0)
    }

    // The assignments that are members of both.
    pub fn intersection(self, other: Condition) -> Condition
        ensures { number result ≡ intersection places (number self) (number other) }
    {
        Condition(self.0 & other.0)
    }

    // The assignments that are no members.
    pub fn complement(self) -> Condition
        ensures { number result ≡ complement places (number self) }
    {
        Condition(!self.0)
    }

    // Whether it never applies.
    pub fn is_empty(self) -> bool
        ensures { result ≡ empty places (number self) }
    {
        self.0 == 0
    }

    // The lowest member, or the number of assignments where there is none.
    // kept: no Option: the definition `Conditions.lowest` gives 64 for none; no From: usize has none from u32.
    pub fn lowest(self) -> usize
        ensures { result ≡ lowest places (number self) }
    {
        self.0.trailing_zeros() as usize
    }

    // The assignments in which the place is completed.
    pub fn completed(place: Place) -> Condition
        ensures { number result ≡ completed places place.0 }
    {
        let i = place.0;
        if PLACES <= i {
            return Condition::EMPTY;
        }
        Condition(COMPLETED[i])
    }

    // The members of one condition where the place is completed, of another where it is aborted.
    pub fn select(place: Place, done: Condition, gone: Condition) -> Condition
        ensures { number result ≡ selected places place.0 (number done) (number gone) }
    {
        let mask = Condition::completed(place);
        let others = mask.complement();
        Condition((done.0 & mask.0) | (gone.0 & others.0))
    }

    // The assignments that are members once the place is set to the outcome.
    pub fn reduce(self, place: Place, outcome: bool) -> Condition
        ensures { number result ≡ reduced places (number self) place.0 outcome }
    {
        let i = place.0;
        if PLACES <= i {
            return self;
        }
        let mask = Condition::completed(place);
        let apart = 1u64 << i;
        if outcome {
            let kept = self.0 & mask.0;
            return Condition(kept | (kept >> apart));
        }
        let others = mask.complement();
        let kept = self.0 & others.0;
        Condition(kept | (kept << apart))
    }

    // Whether changing the place alone can change membership.
    pub fn depends(self, place: Place) -> bool
        ensures { result ≡ depends_on places (number self) place.0 }
    {
        self.reduce(place, true) != self.reduce(place, false)
    }

    // The set of the places that it depends on.
    pub fn places(self) -> u8
        ensures { result ≡ set_of places (depends_on places (number self)) }
    {
        let mut set: u8 = 0;
        for i in 0..PLACES {
            set += u8::from(self.depends(Place(i))) << i;
        }
        set
    }
}
