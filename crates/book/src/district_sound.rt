// Whether the districts of a book are sound: what a record says agrees with its transaction.
ghost use Rattle.std.specs.Prelude.{◌≡◌, cond, ℕ, ◌<◌, ltb};
ghost use Rattle.conditions.specs.Below.{all};
ghost use Rattle.conditions.specs.Places.{places as place_count};
ghost use Rattle.book.specs.Book.{most_districts};
ghost use Rattle.book.specs.SoundTest.{zero_record, sound_busy, sound_record, sound_district};

use crate::records::{IDLE, RESTING, WAITING};
use crate::sets::has;
use crate::tables::place_of;
use crate::{Book, Open, Record};
use conditions::TransactionNumber;

// Whether a record holds zeros.
// kept: no plainer inline: by this clause `x == RESTING` becomes the definition `SoundTest.zero_record`.
fn zero_record(x: Record) -> bool
    ensures { result ≡ zero_record x }
{
    x == RESTING
}

// Whether the open transaction touches the busy district: a waiting one is ready, a computing one in
// neither set.
fn sound_busy(d: usize, o: Open, is_waiting: bool) -> bool
    ensures { (q : ℕ) → q < place_count → result ≡ sound_busy place_count d q o is_waiting }
{
    if !has(o.touched, d) {
        return false;
    }
    if is_waiting {
        has(o.ready, d)
    } else {
        !has(o.ready, d) && !has(o.gave, d)
    }
}

// Whether the record of a district below the count is sound.
fn sound_record(b: &Book, d: usize, x: Record) -> bool
    ensures { result ≡ sound_record place_count b.now d x }
{
    if WAITING < x.phase {
        return false;
    }
    if x.phase == IDLE {
        return x.transaction == TransactionNumber(0);
    }
    match place_of(b.open, x.transaction) {
        Some(q) => sound_busy(d, b.open[q], x.phase == WAITING),
        None => false,
    }
}

// Whether a row of the districts is sound.
fn sound_district(b: &Book, d: usize, x: Record) -> bool
    ensures { result ≡ cond (ltb d b.now.districts) (sound_record place_count b.now d x) (zero_record x) }
{
    if d < b.districts {
        sound_record(b, d, x)
    } else {
        zero_record(x)
    }
}

// Whether each of them is.
pub(crate) fn sound_districts(b: &Book) -> bool
    ensures { result ≡ all most_districts (sound_district place_count b.now) }
{
    b.records
        .iter()
        .enumerate()
        .all(|(d, x)| sound_district(b, d, *x))
}
