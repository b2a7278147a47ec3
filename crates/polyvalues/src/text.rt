// A value as decimal text, and the line of a polyvalue, written into a lent buffer.
//
// A text is measured first, so that one that does not fit is never begun: what puts a text is handed
// a line with room for it.
ghost use Rattle.std.specs.Prelude.{◌≡◌, cond, [], ◌∷◌, ◌++◌, ◌+◌, ◌*◌, ◌^◌, ◌≤◌, pos, length};
ghost use Rattle.conditions.specs.Places.{places};
ghost use Rattle.conditions.specs.Conditions.{number};
ghost use Rattle.conditions.specs.Text.{bytes, decimal, number_at, condition_text};
ghost use Rattle.conditions.specs.Written.{answer, written};
ghost use Rattle.polyvalues.specs.Values.{below, value_text};
ghost use Rattle.polyvalues.specs.Polyvalues.{most_pairs, in_use};
ghost use Rattle.polyvalues.specs.Text.{pair_text, line_text, Puts};

use crate::polyvalue::{Pair, Polyvalue};
use conditions::{Condition, NoRoom, PLACES, TransactionNumber, decimal_len, room, write_decimal};

// How far the value is from zero: what stands after the sign.
fn distance(v: i16) -> u64
    ensures v_value { value_text v ≡ cond (below v (pos 0)) (bytes "-") [] ++ decimal result }
    ensures upper_bound { result ≤ 2 ^ 15 }
{
    u64::from(v.unsigned_abs())
}

// How many bytes the value takes in decimal.
// kept: no plainer by putting into a line of no bytes, as conditions does: here what puts asks for room.
pub fn value_len(v: i16) -> usize
    ensures value { result ≡ length (value_text v) }
    ensures upper_bound { result ≤ 6 }
{
    let digits = decimal_len(distance(v));
    if v < 0 {
        return digits + 1;
    }
    digits
}

// A lent buffer, and the position of the next byte.
// kept: `byte` and `decimal` have twins in sheet's `Line`: one for both would be public with a `requires`.
#[derive(Drop)]
struct Line<'a> {
    buf: &'a mut [u8],
    end: usize,
}

impl Line<'_> {
    // Puts one byte.
    fn byte(&mut self, b: u8)
        requires { self.old.end + 1 ≤ length self.old.buf.now }
        ensures { Puts self.old self.new (b ∷ []) }
    {
        self.buf[self.end] = b;
        self.end += 1;
    }

    // Puts a number in decimal.
    fn decimal(&mut self, n: u64)
        requires { self.old.end + length (decimal n) ≤ length self.old.buf.now }
        ensures { Puts self.old self.new (decimal n) }
    {
        self.end = write_decimal(n, self.buf, self.end).unwrap();
    }

    // Puts a value.
    fn value(&mut self, v: i16)
        requires { self.old.end + length (value_text v) ≤ length self.old.buf.now }
        ensures { Puts self.old self.new (value_text v) }
    {
        let n = distance(v);
        if v < 0 {
            self.byte(b'-');
            return self.decimal(n);
        }
        self.decimal(n);
    }

    // Puts a condition.
    fn condition(&mut self, c: Condition, numbers: [TransactionNumber; PLACES])
        requires { self.old.end + length (condition_text places (number_at numbers) (number c)) ≤ length self.old.buf.now }
        ensures { Puts self.old self.new (condition_text places (number_at numbers) (number c)) }
    {
        self.end = c.write_text(numbers, self.buf, self.end).unwrap();
    }

    // Puts a pair.
    fn pair(&mut self, pair: Pair, numbers: [TransactionNumber; PLACES])
        requires { self.old.end + length (pair_text places (number_at numbers) pair) ≤ length self.old.buf.now }
        ensures { Puts self.old self.new (pair_text places (number_at numbers) pair) }
    {
        self.value(pair.value);
        self.byte(b':');
        self.condition(pair.condition, numbers);
    }

    // Puts a polyvalue: the count of pairs, and each pair after a space.
    fn polyvalue(&mut self, q: Polyvalue, numbers: [TransactionNumber; PLACES])
        requires { self.old.end + length (line_text places (number_at numbers) (in_use q)) ≤ length self.old.buf.now }
        ensures { Puts self.old self.new (line_text places (number_at numbers) (in_use q)) }
    {
        let n = q.len();
        // kept: no plainer than `as`, since Rust has no From<usize> for u64.
        self.decimal(n as u64);
        for i in 0..n {
            let row = q.row(i);
            self.byte(b' ');
            self.pair(row, numbers);
        }
    }
}

// Writes the value in decimal into the buffer, from a position on.
// kept: what may not change: the public signature has the buffer and the position side by side.
pub fn write_value(v: i16, buf: &mut [u8], at: usize) -> Result<usize, NoRoom>
    ensures value { result ≡ answer buf.old at (value_text v) }
    ensures buf_after { buf.new ≡ written buf.old at (value_text v) }
{
    if !room(buf.len(), at, value_len(v)) {
        return Err(NoRoom);
    }
    let mut line = Line { buf, end: at };
    line.value(v);
    Ok(line.end)
}

// How many bytes a pair takes as text.
fn pair_len(pair: Pair, numbers: [TransactionNumber; PLACES]) -> usize
    ensures value { result ≡ length (pair_text places (number_at numbers) pair) }
    ensures upper_bound { result ≤ 7 + (8 * places + 2) * 3 ^ places }
{
    value_len(pair.value) + 1 + pair.condition.text_len(numbers)
}

impl Polyvalue {
    // How many bytes its line takes, where each place has its transaction number.
    pub fn text_len(self, numbers: [TransactionNumber; PLACES]) -> usize
        ensures value { result ≡ length (line_text places (number_at numbers) (in_use self)) }
        ensures upper_bound { result ≤ 1 + most_pairs * (8 + (8 * places + 2) * 3 ^ places) }
    {
        let n = self.len();
        // kept: no plainer than `as`, as in `Line::polyvalue`.
        let mut len = decimal_len(n as u64);
        for i in 0..n {
            let row = self.row(i);
            len += 1 + pair_len(row, numbers);
        }
        len
    }

    // Writes its line into the buffer, from a position on: the count of pairs, and each pair.
    // kept: no plainer with `write_value` as one over a closure: its `pre` would carry the length of the text.
    pub fn write_text(
        self,
        numbers: [TransactionNumber; PLACES],
        buf: &mut [u8],
        at: usize,
    ) -> Result<usize, NoRoom>
        ensures value { result ≡ answer buf.old at (line_text places (number_at numbers) (in_use self)) }
        ensures buf_after { buf.new ≡ written buf.old at (line_text places (number_at numbers) (in_use self)) }
    {
        if !room(buf.len(), at, self.text_len(numbers)) {
            return Err(NoRoom);
        }
        let mut line = Line { buf, end: at };
        line.polyvalue(self, numbers);
        Ok(line.end)
    }
}
