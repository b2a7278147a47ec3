// Complete and abort: the decision of a transaction.
ghost use Rattle.std.specs.Prelude.{◌≡◌, true, not, ◌&&◌, ℕ, ◌<◌, ◌≤◌};
ghost use Rattle.std.specs.Result.{result_and};
ghost use Rattle.conditions.specs.Below.{any};
ghost use Rattle.conditions.specs.Sets.{member};
ghost use Rattle.conditions.specs.Places.{places};
ghost use Rattle.book.specs.Book.{most_districts, place_of};
ghost use Rattle.book.specs.Forget.{decided as is_decided, forget};
ghost use Rattle.book.specs.Hear.{outcome};
ghost use Rattle.book.specs.Decide.{decision_number, complete_answer, abort_answer, decide, complete, abort};
ghost use Rattle.book.specs.SoundTest.{sound};

use crate::sets::has;
use crate::tables::{FREE, item_depends, some_on};
use crate::{Book, Done, Open, Refusal};
use conditions::{Place, TransactionNumber};

// What is decided of a transaction, with document 01's number.
#[derive(Clone, Copy, PartialEq, Eq)]
pub enum Decision {
    Completed = 1,
    Aborted,
}

impl Decision {
    // Its number, as a place holds it.
    // kept: no plainer: `as u8` of an enum is its discriminant, here the document's number (decision_number).
    fn number(self) -> u8
        ensures { result ≡ decision_number self }
    {
        self as u8
    }
}

// The numbers of the decisions.
pub(crate) const COMPLETED: u8 = Decision::Completed as u8;

pub(crate) const ABORTED: u8 = Decision::Aborted as u8;

impl Open {
    // Whether the transaction is decided, either way.
    pub(crate) fn is_decided(self) -> bool
        ensures { result ≡ is_decided self }
    {
        self.decision != 0
    }

    // Whether it is completed.
    pub(crate) fn is_completed(self) -> bool
        ensures { result ≡ outcome self }
    {
        self.decision == COMPLETED
    }
}

// Whether the district is touched and has not reported ready.
fn is_awaited(o: Open, d: usize) -> bool
    ensures { result ≡ (member o.touched d && not (member o.ready d)) }
{
    has(o.touched, d) && !has(o.ready, d)
}

// Whether a district is awaited.
// kept: no plainer: what is counted is a set, with no rows to lend; the caller has the bound of a sound book.
fn some_awaited(o: Open, districts: usize) -> bool
    requires { districts ≤ most_districts }
    ensures { result ≡ any districts (λ d. member o.touched d && not (member o.ready d)) }
{
    (0..districts).any(|d| is_awaited(o, d))
}

// The transaction at the place has the decision, and is closed where no district is on it and no item
// depends on it: nothing else can be forgotten.
fn decided(mut b: Book, q: usize, decision: Decision) -> Book
    requires { (sound places b ≡ true) × (q < places) }
    ensures { (n : ℕ) → q ≡ place_of places b n → result ≡ forget places (decide places b n (decision_number decision)) }
{
    let number = b.open[q].number;
    b.open[q].decision = decision.number();
    if some_on(&b.records[..b.districts], number) {
        return b;
    }
    if b.items[..b.count]
        .iter()
        .any(|x| item_depends(*x, Place(q)))
    {
        return b;
    }
    b.open[q] = FREE;
    b
}

impl Book {
    // The place of the transaction, where it may abort: 10 if it is decided.
    fn may_abort(&self, n: TransactionNumber) -> Result<usize, Refusal>
        ensures { result ≡ result_and (abort_answer places self.now n.0) (Ok (place_of places self.now n.0)) }
    {
        let q = self.open_place(n)?;
        if self.open[q].is_decided() {
            return Err(Refusal::AlreadyDecided);
        }
        Ok(q)
    }

    // And where it may complete: then 11 unless its touched districts are ready.
    fn may_complete(&self, n: TransactionNumber) -> Result<usize, Refusal>
        ensures { result ≡ result_and (complete_answer places self.now n.0) (Ok (place_of places self.now n.0)) }
    {
        let q = self.may_abort(n)?;
        if some_awaited(self.open[q], self.districts) {
            return Err(Refusal::NotReady);
        }
        Ok(q)
    }

    // Complete, the call.
    // kept: tried `Done::accepted` and `Done::refused` in each call: 302.94 M instructions a sheet, not 298.04 M.
    pub fn complete(self, n: TransactionNumber) -> Done
        ensures { result ≡ complete places self n.0 }
    {
        match self.may_complete(n) {
            Ok(q) => {
                let after = decided(self, q, Decision::Completed);
                Done {
                    answer: Ok(()),
                    book: after,
                }
            }
            Err(refusal) => Done {
                answer: Err(refusal),
                book: self,
            },
        }
    }

    // Abort, the call.
    pub fn abort(self, n: TransactionNumber) -> Done
        ensures { result ≡ abort places self n.0 }
    {
        match self.may_abort(n) {
            Ok(q) => {
                let after = decided(self, q, Decision::Aborted);
                Done {
                    answer: Ok(()),
                    book: after,
                }
            }
            Err(refusal) => Done {
                answer: Err(refusal),
                book: self,
            },
        }
    }
}
