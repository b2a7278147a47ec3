// Where an event takes place: an open transaction, and a district.
ghost use Rattle.std.specs.Prelude.{◌≡◌, Bool};
ghost use Rattle.std.specs.Result.{result_and};
ghost use Rattle.conditions.specs.Places.{places};
ghost use Rattle.book.specs.Answers.{first_of};
ghost use Rattle.book.specs.Book.{place_of, record_at};
ghost use Rattle.book.specs.Judged.{open_tests, site_tests, on_tests, site_of};

use crate::tables::place_of;
use crate::{Book, Record, Refusal};
use conditions::{Place, TransactionNumber};

// The transaction's number and its place, and the district.
#[derive(Clone, Copy)]
pub struct Site {
    pub number: TransactionNumber,
    pub place: Place,
    pub district: u8,
}

impl Book {
    // The place of the open transaction with the number: 15, 4.
    pub(crate) fn open_place(&self, n: TransactionNumber) -> Result<usize, Refusal>
        ensures { result ≡ result_and (first_of (open_tests places self.now n.0)) (Ok (place_of places self.now n.0)) }
    {
        if !self.is_sound() {
            return Err(Refusal::Unsound);
        }
        place_of(self.open, n).ok_or(Refusal::NotOpen)
    }

    // The transaction and the district: 15, 4, 1.
    pub(crate) fn site(&self, n: TransactionNumber, d: u8) -> Result<Site, Refusal>
        ensures { result ≡ result_and (first_of (site_tests places self.now n.0 d)) (Ok (site_of places self.now n.0 d)) }
    {
        let q = self.open_place(n)?;
        if self.districts <= usize::from(d) {
            return Err(Refusal::NoDistrict);
        }
        Ok(Site {
            number: n,
            place: Place(q),
            district: d,
        })
    }

    // And the district's record passes a test on the transaction: 15, 4, 1, 9.
    pub(crate) fn site_where<F: Fn(Record, TransactionNumber) -> bool>(
        &self,
        n: TransactionNumber,
        d: u8,
        is_on: F,
    ) -> Result<Site, Refusal>
        requires { F.IsAlwaysCallable is_on }
        ensures { (t : Bool) → ((r : Bool) → F.post is_on (record_at self.now d) n r → r ≡ t) → result ≡ result_and (first_of (on_tests places self.now n.0 d t)) (Ok (site_of places self.now n.0 d)) }
    {
        let at = self.site(n, d)?;
        if !is_on(self.records[usize::from(d)], n) {
            return Err(Refusal::NotOnIt);
        }
        Ok(at)
    }
}
