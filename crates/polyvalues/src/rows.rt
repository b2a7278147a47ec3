// A pair joined among the rows of a polyvalue.
//
// The rows are tidy here: those past the count are zero. Values rise only if they did before.
// kept: no plainer: a type of tidy polyvalues would be taken apart again in each of the three functions.
ghost use Rattle.std.specs.Prelude.{◌≡◌, ◌<◌, ◌≤◌, true, false, MatchResult};
ghost use Rattle.conditions.specs.Places.{places};
ghost use Rattle.conditions.specs.Conditions.{union};
ghost use Rattle.polyvalues.specs.Pairs.{pair, assignments};
ghost use Rattle.polyvalues.specs.Polyvalues.{most_pairs, rows_of, in_use, packed, fitting};
ghost use Rattle.polyvalues.specs.Simplify.{insert, join};
ghost use Rattle.polyvalues.specs.Rows.{PlaceOf, has_at, moved};

use crate::polyvalue::{PAIRS, Pair, Polyvalue};
use crate::value::{below, equal};

// The row in use that has the value, or where a new one goes: before the first higher one.
// kept: what may not change: any count may be handed in (refusals, "nine pairs"): no invariant on it.
fn place_of(q: Polyvalue, value: i16) -> Result<usize, usize>
    requires { q.count ≤ most_pairs }
    ensures { MatchResult result (λ k. PlaceOf q value k × (has_at q k value ≡ true)) (λ k. PlaceOf q value k × (has_at q k value ≡ false)) }
{
    for (k, v) in q.values[..q.count].iter().enumerate() {
        if equal(*v, value) {
            return Ok(k);
        }
        if below(value, *v) {
            return Err(k);
        }
    }
    Err(q.count)
}

// The rows from k to n moved down by one, with a new one at k.
fn moved(q: Polyvalue, k: usize, n: usize, new: Pair) -> Polyvalue
    requires { (k ≤ n) × (n < most_pairs) }
    ensures { rows_of result ≡ moved k n new (rows_of q) }
{
    let mut rows = q;
    rows.values.copy_within(k..n, k + 1);
    rows.conditions.copy_within(k..n, k + 1);
    rows.values[k] = new.value;
    rows.conditions[k] = new.condition;
    rows
}

// The new pair's condition added to that of a row with its value.
fn united(row: Pair, new: Pair) -> Pair
    ensures { result ≡ pair new.value (union places (assignments row) (assignments new)) }
{
    let condition = row.condition.union(new.condition);
    Pair {
        value: new.value,
        condition,
    }
}

// The new pair among rows whose values rise: at its place, or united with the row of its value.
fn inserted(q: Polyvalue, new: Pair) -> Option<Polyvalue>
    requires { q ≡ packed (in_use q) }
    ensures { result ≡ fitting (insert places new.value (assignments new) (in_use q)) }
{
    let n = q.count;
    match place_of(q, new.value) {
        Ok(k) => {
            let row = q.row(k);
            let both = united(row, new);
            let mut joined = q;
            joined.values[k] = both.value;
            joined.conditions[k] = both.condition;
            Some(joined)
        }
        Err(k) => {
            if PAIRS <= n {
                return None;
            }
            let rows = moved(q, k, n, new);
            Some(Polyvalue {
                count: n + 1,
                ..rows
            })
        }
    }
}

// The same, but that an empty condition adds nothing.
pub(crate) fn with_pair(q: Polyvalue, new: Pair) -> Option<Polyvalue>
    requires { q ≡ packed (in_use q) }
    ensures { result ≡ fitting (join places new.value (assignments new) (in_use q)) }
{
    if new.condition.is_empty() {
        return Some(q);
    }
    inserted(q, new)
}
