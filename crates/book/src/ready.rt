// Ready: a computing district waits for the decision. It stays on its transaction, so there is nothing to
// forget.
ghost use Rattle.std.specs.Prelude.{◌≡◌};
ghost use Rattle.std.specs.Result.{result_and};
ghost use Rattle.conditions.specs.Places.{places};
ghost use Rattle.book.specs.Judged.{site_of, SiteIn};
ghost use Rattle.book.specs.Ready.{ready_answer, readied, ready};

use crate::records::{computing_on, wait};
use crate::sets::including;
use crate::site::Site;
use crate::{Book, Done, Refusal};
use conditions::TransactionNumber;

// The district waits on the transaction, and is in its ready set.
fn readied(mut b: Book, at: Site) -> Book
    requires { SiteIn places b at }
    ensures { result ≡ readied places b at.number.0 at.district }
{
    let d = usize::from(at.district);
    wait(&mut b.records[d]);
    b.open[at.place.0].ready = including(b.open[at.place.0].ready, d);
    b
}

impl Book {
    // Where a district may report ready: 9 unless the district is computing on the transaction.
    fn may_ready(&self, n: TransactionNumber, d: u8) -> Result<Site, Refusal>
        ensures { result ≡ result_and (ready_answer places self.now n.0 d) (Ok (site_of places self.now n.0 d)) }
    {
        self.site_where(n, d, computing_on)
    }

    // Ready, the call.
    pub fn ready(self, n: TransactionNumber, d: u8) -> Done
        ensures { result ≡ ready places self n.0 d }
    {
        match self.may_ready(n, d) {
            Ok(at) => {
                let after = readied(self, at);
                Done {
                    answer: Ok(()),
                    book: after,
                }
            }
            Err(refusal) => Done {
                answer: Err(refusal),
                book: self,
            },
        }
    }
}
