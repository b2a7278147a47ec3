// Lines, written into a lent buffer that has room for any of them.
ghost use Rattle.std.specs.Prelude.{◌≡◌, [], ◌∷◌, ◌+◌, ◌≤◌, length};
ghost use Rattle.conditions.specs.Text.{decimal};
ghost use Rattle.sheet.specs.Lines.{event_line, refusal_line, line_answer, line_written};
ghost use Rattle.sheet.specs.Plays.{field, head, Puts};

use book::{Answer, answer_number};
use conditions::{NoRoom, write_decimal};

// What show is lent.
pub(crate) const LENT: usize = 65536;

// The longest line that there can be.
pub const LONGEST_LINE: usize = 65560;

// A line, as far as it is written into the buffer that it is lent.
#[derive(Drop)]
pub(crate) struct Line<'a> {
    pub(crate) buf: &'a mut [u8],
    pub(crate) end: usize,
}

impl Line<'_> {
    // Puts one byte.
    pub(crate) fn byte(&mut self, b: u8)
        requires { self.old.end + 1 ≤ length self.old.buf.now }
        ensures { Puts self.old self.new (b ∷ []) }
    {
        self.buf[self.end] = b;
        self.end += 1;
    }

    // Puts these bytes.
    pub(crate) fn bytes(&mut self, text: &[u8])
        requires { self.old.end + length text.now ≤ length self.old.buf.now }
        ensures { Puts self.old self.new text.now }
    {
        let end = self.end + text.len();
        self.buf[self.end..end].copy_from_slice(text);
        self.end = end;
    }

    // Puts a number in decimal.
    pub(crate) fn decimal(&mut self, n: u64)
        requires { self.old.end + 20 ≤ length self.old.buf.now }
        ensures put { Puts self.old self.new (decimal n) }
        ensures upper_bound { self.new.end ≤ self.old.end + 20 }
    {
        self.end = write_decimal(n, self.buf, self.end).unwrap();
    }

    // Puts a space and a number.
    pub(crate) fn field(&mut self, n: u64)
        requires { self.old.end + 21 ≤ length self.old.buf.now }
        ensures put { Puts self.old self.new (field (decimal n)) }
        ensures upper_bound { self.new.end ≤ self.old.end + 21 }
    {
        self.byte(b' ');
        self.decimal(n);
    }

    // Puts the position and the answer number.
    pub(crate) fn head(&mut self, position: u64, answer: Answer)
        requires { self.old.end + 41 ≤ length self.old.buf.now }
        ensures put { Puts self.old self.new (head position answer) }
        ensures upper_bound { self.new.end ≤ self.old.end + 41 }
    {
        self.decimal(position);
        self.field(u64::from(answer_number(answer)));
    }

    // Puts the line of an event that prints nothing after its answer number.
    pub(crate) fn plain(&mut self, position: u64, answer: Answer)
        requires { self.old.end + 42 ≤ length self.old.buf.now }
        ensures put { Puts self.old self.new (event_line position answer []) }
        ensures upper_bound { self.new.end ≤ self.old.end + 42 }
    {
        self.head(position, answer);
        self.byte(b'\n');
    }
}

// Writes the line of a refused sheet at the buffer's start.
#[tactic(auto, unfolding(crate::specs::Lines::line_answer, crate::specs::Lines::line_written))]
pub fn write_refusal(answer: Answer, place: u64, buf: &mut [u8]) -> Result<usize, NoRoom>
    ensures value { result ≡ line_answer buf.old (refusal_line answer place) }
    ensures buf_after { buf.new ≡ line_written buf.old (refusal_line answer place) }
{
    if buf.len() < LONGEST_LINE {
        return Err(NoRoom);
    }
    let mut line = Line { buf, end: 0 };
    line.bytes(b"sheet");
    line.field(u64::from(answer_number(answer)));
    line.field(place);
    line.byte(b'\n');
    Ok(line.end)
}
