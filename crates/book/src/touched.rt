// What a program touches: districts and their items.
ghost use Rattle.std.specs.Prelude.{◌≡◌, not, ◌&&◌, ◌||◌, cond, ℕ, ◌<◌, ◌≤◌, eqb, get_or, length};
ghost use Rattle.conditions.specs.Below.{any};
ghost use Rattle.conditions.specs.Sets.{member};
ghost use Rattle.book.specs.Book.{most_districts, no_record, record_on};
ghost use Rattle.book.specs.Rows.{rows};
ghost use Rattle.book.specs.Records.{begin_record};

use crate::Record;
use crate::records::COMPUTING;
use crate::sets::{has, including};
use crate::tables::{DISTRICTS, record_on};
use conditions::TransactionNumber;

// The set of districts and, where an item is touched, its district.
pub(crate) fn with_district(set: u8, is_touched: bool, district: u8) -> u8
    ensures { (d : ℕ) → d < most_districts → member result d ≡ (member set d || (is_touched && eqb district d)) }
{
    let d = usize::from(district);
    if is_touched && d < DISTRICTS {
        including(set, d)
    } else {
        set
    }
}

// Whether the set has the district, and it is on a transaction.
fn is_busy(r: Record, set: u8, d: usize) -> bool
    ensures { result ≡ (member set d && not (eqb (record_on r) 0)) }
{
    has(set, d) && record_on(r).0 != 0
}

// Whether a district of the set is.
pub(crate) fn some_busy(records: &[Record], set: u8) -> bool
    ensures { result ≡ any (length records.now) (λ d. member set d && not (eqb (record_on (get_or records.now d no_record)) 0)) }
{
    records.iter().enumerate().any(|(d, r)| is_busy(*r, set, d))
}

// The record of the district d when the districts of the set begin to compute.
fn begun_record(r: Record, set: u8, d: usize, n: TransactionNumber) -> Record
    ensures { result ≡ cond (member set d) (begin_record n.0) r }
{
    if has(set, d) {
        Record {
            phase: COMPUTING,
            transaction: n,
        }
    } else {
        r
    }
}

// The records, where each district of the set computes on the transaction.
// kept: no plainer lent as in give_up.rt (`&mut b.items`): its contract would be longer than the loop.
pub(crate) fn begun_records(
    records: [Record; DISTRICTS],
    districts: usize,
    set: u8,
    n: TransactionNumber,
) -> [Record; DISTRICTS]
    requires { districts ≤ most_districts }
    ensures { result ≡ rows (λ d x. cond (member set d) (begin_record n.0) x) districts records }
{
    let mut now = records;
    for (d, r) in now[..districts].iter_mut().enumerate() {
        *r = begun_record(*r, set, d, n);
    }
    now
}
