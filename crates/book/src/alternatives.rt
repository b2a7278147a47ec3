// Begin's work: the program is run once for each block of assignments, and the results are joined.
ghost use Rattle.std.specs.Prelude.{◌≡◌, true, false, ◌&&◌, ℕ, ◌^◌, ◌≤◌, ◌<◌, ltb, is_some, IfSome, MatchOption};
ghost use Rattle.conditions.specs.Below.{all};
ghost use Rattle.conditions.specs.Places.{places};
ghost use Rattle.conditions.specs.Conditions.{number, union, intersection};
ghost use Rattle.polyvalues.specs.Pairs.{assignments};
ghost use Rattle.polyvalues.specs.Polyvalues.{most_pairs, in_use};
ghost use Rattle.polyvalues.specs.Operations.{together};
ghost use Rattle.book.specs.declared.Book.{Book};
ghost use Rattle.book.specs.Book.{most_items};
ghost use Rattle.book.specs.Programs.{takes, some_step};
ghost use Rattle.book.specs.SoundTest.{sound};
ghost use Rattle.book.specs.Begin.{outside, too_many};
ghost use Rattle.book.specs.States.{steps_of, state_of, state_rows};
ghost use Rattle.book.specs.Alternatives.{block, StartsAs, joined_row, row_after, RowsAfter, Covers, nothing_worked, grant_of, WorkedOut};

use crate::program::Program;
use crate::state::{State, Value};
use crate::tables::ITEMS;
use crate::{Book, Item};
use conditions::{ASSIGNMENTS, Condition};
use polyvalues::{PAIRS, Pair, Polyvalue};

// A block of assignments, and the state that the program is run on under each of them.
#[derive(Clone, Copy)]
struct Alternative {
    condition: Condition,
    state: State,
}

impl Alternative {
    // The block cut to where the pair applies, and the item has its value.
    fn with(self, item: usize, pair: Pair) -> Alternative
        requires { item < most_items }
        ensures condition_value { number result.condition ≡ intersection places (number self.condition) (assignments pair) }
        ensures state_value { result.state ≡ state_rows (takes (state_of self.state) item pair.value) }
    {
        let condition = self.condition.intersection(pair.condition);
        let state = self.state.with(item, Value(pair.value));
        Alternative { condition, state }
    }
}

// The block of the assignment, and the held values that it chooses.
// kept: what may not change: an unsound book may be handed in (refusals, "33 items"): no invariant on its count.
fn alternative_under(b: &Book, p: Program, assignment: usize) -> Alternative
    requires { b.now.count ≤ most_items }
    ensures condition_value { number result.condition ≡ block places b.now (steps_of p) assignment }
    ensures starts_as { StartsAs b.now (steps_of p) assignment b.now.count result.state }
{
    let mut done = Alternative {
        condition: Condition::FULL,
        state: State {
            values: [Value(0); ITEMS],
        },
    };
    for (i, x) in b.items[..b.count].iter().enumerate() {
        if p.touches(i) {
            let pair = x.held.applying(assignment);
            done = done.with(i, pair);
        }
    }
    done
}

// One item's new polyvalue with a result joined in, if the item is touched and there is room for it.
fn joined_row(
    old: Polyvalue,
    touched: bool,
    value: Value,
    condition: Condition,
) -> Option<Polyvalue>
    ensures { result ≡ joined_row places touched value.0 (number condition) old }
{
    if touched {
        return old.join(value.0, condition).ok();
    }
    Some(old)
}

// The results of a run, which stand under the condition, joined in for each touched item, if there is
// room for them.
// kept: what may not change: an unsound book may be handed in (refusals, "33 items"): no invariant on its count.
fn joined_in(
    new: [Polyvalue; ITEMS],
    count: usize,
    p: Program,
    s: State,
    condition: Condition,
) -> Option<[Polyvalue; ITEMS]>
    requires { count ≤ most_items }
    ensures fits_value { is_some result ≡ all count (λ i. is_some (row_after places (steps_of p) s (number condition) new i)) }
    ensures rows_after { IfSome result (λ now. RowsAfter places (steps_of p) s (number condition) new count now) }
{
    let mut now = new;
    for (i, x) in now[..count].iter_mut().enumerate() {
        *x = joined_row(*x, p.touches(i), s.values[i], condition)?;
    }
    Some(now)
}

// What is worked out so far: whether the program declines and whether it does not, under which
// assignments, and the new polyvalues of the touched items.
#[derive(Clone, Copy)]
pub struct Worked {
    // kept: two flags: `Covers` speaks of both, and under a book's assignments both may hold.
    pub declines: bool,
    pub grants: bool,
    pub covered: Condition,
    pub new: [Polyvalue; ITEMS],
}

impl Worked {
    // The same, with one block more, if there is room for it: the block that an assignment of a book of
    // so many items starts with.
    // kept: what may not change: an unsound book may be handed in (refusals, "33 items"): no invariant on its count.
    fn after(self, count: usize, p: Program, start: Alternative) -> Option<Worked>
        requires { (count ≤ most_items) × (some_step (outside count) (steps_of p) ≡ false) }
        ensures covered_value { IfSome result (λ w. number w.covered ≡ union places (number self.covered) (number start.condition)) }
        ensures covers { (b : Book) (a : ℕ) → b.count ≡ count → sound places b ≡ true → a < 2 ^ places → Covers places b (steps_of p) self → number start.condition ≡ block places b (steps_of p) a → StartsAs b (steps_of p) a b.count start.state → MatchOption result (too_many places b (steps_of p) ≡ true) (λ w. Covers places b (steps_of p) w) }
    {
        let mut state = start.state;
        let end = p.run(&mut state);
        let grants = end.is_ok();
        let new = joined_in(self.new, count, p, state, start.condition)?;
        Some(Worked {
            declines: self.declines | !grants,
            grants: self.grants | grants,
            covered: self.covered.union(start.condition),
            new,
        })
    }

    // 1 if no assignment declines, 0 if all do, 2 otherwise.
    // kept: what may not change: the definition `Begin.grant` gives the document's number.
    pub(crate) fn granted(&self) -> u8
        ensures { result ≡ grant_of self.now.declines self.now.grants }
    {
        match (self.declines, self.grants) {
            (false, _) => 1,
            (true, false) => 0,
            (true, true) => 2,
        }
    }
}

// Nothing is worked out yet.
fn nothing_worked() -> Worked
    ensures { result ≡ nothing_worked }
{
    Worked {
        declines: false,
        grants: false,
        covered: Condition::EMPTY,
        new: [Polyvalue::nothing(); ITEMS],
    }
}

// All alternatives worked out, if there is room for them.
pub(crate) fn worked_out(b: &Book, p: Program) -> Option<Worked>
    requires b_value { sound places b.now ≡ true }
    requires p_value { some_step (outside b.now.count) (steps_of p) ≡ false }
    ensures { MatchOption result (too_many places b.now (steps_of p) ≡ true) (λ w. WorkedOut places b.now (steps_of p) w) }
{
    let mut done = nothing_worked();
    let mut next: usize = 0;
    // kept: no plainer as a `for`: the next one is the lowest assignment that no block has covered yet.
    while next < ASSIGNMENTS {
        let start = alternative_under(b, p, next);
        done = done.after(b.count, p, start)?;
        next = done.covered.complement().lowest();
    }
    Some(done)
}

// Whether a touched item's old and new values are more than there is room for.
fn over_room(x: Item, new: Polyvalue, touched: bool) -> bool
    ensures { result ≡ (touched && ltb most_pairs (together (in_use x.held) (in_use new))) }
{
    touched && PAIRS < x.held.together(new)
}

// Whether those of some item are.
// kept: what may not change: an unsound book may be handed in (refusals, "33 items"): no invariant on its count.
pub(crate) fn too_many(b: &Book, p: Program, w: &Worked) -> bool
    requires count_le_most_items { b.now.count ≤ most_items }
    requires worked_out { WorkedOut places b.now (steps_of p) w.now }
    ensures { result ≡ too_many places b.now (steps_of p) }
{
    b.items[..b.count]
        .iter()
        .zip(&w.new)
        .enumerate()
        .any(|(i, (x, new))| over_room(*x, *new, p.touches(i)))
}
