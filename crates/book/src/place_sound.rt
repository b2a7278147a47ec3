// Whether the places of a book are sound: each holds an open transaction or zeros.
ghost use Rattle.std.specs.Prelude.{◌≡◌, not, ◌<◌, ◌≤◌, ◌^◌, eqb, ltb, get_or};
ghost use Rattle.conditions.specs.Below.{all};
ghost use Rattle.conditions.specs.Places.{places as place_count};
ghost use Rattle.book.specs.declared.Book.{Book};
ghost use Rattle.book.specs.Book.{most_districts, no_open};
ghost use Rattle.book.specs.Tables.{TablesOf};
ghost use Rattle.book.specs.SoundTest.{zero_open, sound_at, sound_open, sound_place};

use crate::Open;
use crate::decide::{ABORTED, COMPLETED};
use crate::forget::is_kept;
use crate::sets::has;
use crate::tables::{FREE, Tables};
use conditions::{PLACES, TransactionNumber};

// Whether a place holds zeros.
// kept: no plainer inline: by this clause `o == FREE` becomes the definition `SoundTest.zero_open`.
fn zero_open(o: Open) -> bool
    ensures { result ≡ zero_open o }
{
    o == FREE
}

// Whether a set of districts has only those below the count.
// kept: no plainer handed the `Tables` with their ghost bound: the shift needs this one number alone.
fn is_within(set: u8, districts: usize) -> bool
    requires { districts ≤ most_districts }
    ensures { result ≡ ltb set (2 ^ districts) }
{
    u16::from(set) < 1u16 << districts
}

// Whether ready and gave-up are apart and within touched, and a completed transaction has the
// district ready where it touches it.
fn sound_at(o: Open, d: usize) -> bool
    ensures { result ≡ sound_at o d }
{
    let ready = has(o.ready, d);
    let gave = has(o.gave, d);
    if has(o.touched, d) {
        if ready {
            !gave
        } else {
            o.decision != COMPLETED
        }
    } else {
        !ready && !gave
    }
}

// Whether that holds of each district.
fn sound_sets(o: Open, districts: usize) -> bool
    ensures { result ≡ all districts (sound_at o) }
{
    (0..districts).all(|d| sound_at(o, d))
}

// Whether no place before q has the number.
fn number_differs(places: [Open; PLACES], q: usize, n: TransactionNumber) -> bool
    requires { q ≤ place_count }
    ensures { result ≡ all q (λ p. not (eqb (get_or places p no_open).number.0 n.0)) }
{
    places[..q].iter().all(|o| o.number != n)
}

// Whether the open transaction at a place is sound.
fn sound_open(t: Tables, q: usize, o: Open) -> bool
    requires { q < place_count }
    ensures { (b : Book) → TablesOf place_count b t → result ≡ sound_open place_count b q o }
{
    let districts = t.districts;
    if !is_within(o.touched, districts) {
        return false;
    }
    if !is_within(o.ready, districts) {
        return false;
    }
    if !is_within(o.gave, districts) {
        return false;
    }
    if ABORTED < o.decision {
        return false;
    }
    if !number_differs(t.open, q, o.number) {
        return false;
    }
    // kept: tried `t.last < o.number` with PartialOrd derived: the proof did not close (`search` gave up on it).
    if t.last.0 < o.number.0 {
        return false;
    }
    if !is_kept(t, q, o) {
        return false;
    }
    sound_sets(o, districts)
}

// Whether a place is sound.
fn sound_place(t: Tables, q: usize) -> bool
    requires { q < place_count }
    ensures { (b : Book) → TablesOf place_count b t → result ≡ sound_place place_count b q }
{
    let o = t.open[q];
    if o.number.0 != 0 {
        return sound_open(t, q, o);
    }
    zero_open(o) && !has(t.depended, q)
}

// Whether each of them is.
pub(crate) fn sound_places(t: Tables) -> bool
    ensures { (b : Book) → TablesOf place_count b t → result ≡ all place_count (sound_place place_count b) }
{
    // kept: tried `(0..PLACES).all(..)`: no proof: what is inferred of the closure hides sound_place's clause.
    for q in 0..PLACES {
        if !sound_place(t, q) {
            return false;
        }
    }
    true
}
