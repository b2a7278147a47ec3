// Give up: a busy district waits no longer.
ghost use Rattle.std.specs.Prelude.{◌≡◌, ℕ, ◌<◌, ◌≤◌, get_or};
ghost use Rattle.std.specs.Result.{result_and};
ghost use Rattle.conditions.specs.Places.{places};
ghost use Rattle.polyvalues.specs.Polyvalues.{most_pairs, in_use};
ghost use Rattle.polyvalues.specs.Operations.{together};
ghost use Rattle.book.specs.declared.Book.{Book};
ghost use Rattle.book.specs.Book.{most_items, void_item};
ghost use Rattle.book.specs.Rows.{rows};
ghost use Rattle.book.specs.Judged.{site_of, SiteIn};
ghost use Rattle.book.specs.GiveUp.{give_up_answer, give_up_item, gave_up, give_up};

use crate::forget::forget;
use crate::items::given_up;
use crate::records::{busy_on, computing_on, rest};
use crate::sets::including;
use crate::site::Site;
use crate::tables::{DISTRICTS, ITEMS};
use crate::{Book, Done, Item, Record, Refusal};
use conditions::TransactionNumber;

// The items are given up.
// kept: no plainer as one with hear's loop: the closure's `pre` would carry `small`, the bound on each item.
fn give_up_items(
    items: &mut [Item; ITEMS],
    count: usize,
    records: [Record; DISTRICTS],
    at: Site,
    computing: bool,
)
    requires few { count ≤ most_items }
    requires small { (i : ℕ) → i < count → together (in_use (get_or items.now i void_item).pending) (in_use (get_or items.now i void_item).held) ≤ most_pairs }
    ensures { (b : Book) → b.records ≡ records → items.new ≡ rows (λ i x. give_up_item places b at.number.0 at.district at.place.0 computing x) count items.old }
{
    for x in &mut items[..count] {
        *x = given_up(*x, records, at, computing);
    }
}

// The district is idle, its items are given up, and from computing the transaction is marked.
fn gave_up(mut b: Book, at: Site) -> Book
    requires { SiteIn places b at }
    ensures { result ≡ gave_up places b at.number.0 at.district }
{
    let d = usize::from(at.district);
    let computing = computing_on(b.records[d], at.number);
    let count = b.count;
    let records = b.records;
    give_up_items(&mut b.items, count, records, at, computing);
    rest(&mut b.records[d]);
    if computing {
        b.open[at.place.0].gave = including(b.open[at.place.0].gave, d);
    }
    b
}

impl Book {
    // Where a district may give up: 9 unless the district is busy on the transaction.
    fn may_give_up(&self, n: TransactionNumber, d: u8) -> Result<Site, Refusal>
        ensures { result ≡ result_and (give_up_answer places self.now n.0 d) (Ok (site_of places self.now n.0 d)) }
    {
        self.site_where(n, d, busy_on)
    }

    // Give up, the call.
    pub fn give_up(self, n: TransactionNumber, d: u8) -> Done
        ensures { result ≡ give_up places self n.0 d }
    {
        match self.may_give_up(n, d) {
            Ok(at) => {
                let after = gave_up(self, at);
                Done {
                    answer: Ok(()),
                    book: forget(after),
                }
            }
            Err(refusal) => Done {
                answer: Err(refusal),
                book: self,
            },
        }
    }
}
