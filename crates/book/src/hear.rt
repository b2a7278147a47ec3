// Hear: a district learns the outcome of a transaction.
ghost use Rattle.std.specs.Prelude.{◌≡◌, ◌≤◌};
ghost use Rattle.std.specs.Result.{result_and};
ghost use Rattle.conditions.specs.Places.{places};
ghost use Rattle.book.specs.Judged.{site_of, SiteIn};
ghost use Rattle.book.specs.declared.Book.{Book};
ghost use Rattle.book.specs.Book.{most_items};
ghost use Rattle.book.specs.Rows.{rows};
ghost use Rattle.book.specs.Hear.{hear_answer, hear_item, heard, hear};

use crate::forget::forget;
use crate::items::heard as heard_item;
use crate::records::hear;
use crate::site::Site;
use crate::tables::{DISTRICTS, ITEMS};
use crate::{Book, Done, Item, Record, Refusal};
use conditions::TransactionNumber;

// The items have heard.
// kept: what may not change: an unsound book may be handed in (refusals, "33 items"): no invariant on its count.
fn hear_items(
    items: &mut [Item; ITEMS],
    count: usize,
    records: [Record; DISTRICTS],
    at: Site,
    completed: bool,
)
    requires { count ≤ most_items }
    ensures { (b : Book) → b.records ≡ records → items.new ≡ rows (λ i x. hear_item places b at.number.0 at.district at.place.0 completed x) count items.old }
{
    for x in &mut items[..count] {
        *x = heard_item(*x, records, at, completed);
    }
}

// The district and its items have heard. The items go by its record as it was.
fn heard(mut b: Book, at: Site) -> Book
    requires { SiteIn places b at }
    ensures { result ≡ heard places b at.number.0 at.district }
{
    let completed = b.open[at.place.0].is_completed();
    let count = b.count;
    let records = b.records;
    hear(&mut b.records[usize::from(at.district)], at.number);
    hear_items(&mut b.items, count, records, at, completed);
    b
}

impl Book {
    // Where a district may hear: 12 before a decision.
    fn may_hear(&self, n: TransactionNumber, d: u8) -> Result<Site, Refusal>
        ensures { result ≡ result_and (hear_answer places self.now n.0 d) (Ok (site_of places self.now n.0 d)) }
    {
        let at = self.site(n, d)?;
        let q = at.place.0;
        if !self.open[q].is_decided() {
            return Err(Refusal::NotDecided);
        }
        Ok(at)
    }

    // Hear, the call.
    pub fn hear(self, n: TransactionNumber, d: u8) -> Done
        ensures { result ≡ hear places self n.0 d }
    {
        match self.may_hear(n, d) {
            Ok(at) => {
                let after = heard(self, at);
                Done {
                    answer: Ok(()),
                    book: forget(after),
                }
            }
            Err(refusal) => Done {
                answer: Err(refusal),
                book: self,
            },
        }
    }
}
