// A step of a program: its kind, what is wrong with it, and which items it names.
ghost use Rattle.std.specs.Prelude.{◌≡◌};
ghost use Rattle.book.specs.Programs.{is_copy, numbered, names};
ghost use Rattle.book.specs.Begin.{bad_step, in_table, outside};
ghost use Rattle.book.specs.States.{KindOf};

use crate::Step;
use polyvalues::in_range;

// The kinds of a step.
#[derive(Clone, Copy, PartialEq, Eq)]
pub enum Kind {
    Need,
    Add,
    Set,
    Copy,
}

// No kind has the number.
#[derive(Clone, Copy, PartialEq, Eq)]
pub struct UnknownKind;

impl TryFrom<u8> for Kind {
    type Error = UnknownKind;

    ghost try_from_gives = { KindOf };

    // The kind with the number.
    fn try_from(kind: u8) -> Result<Self, UnknownKind> {
        match kind {
            1 => Ok(Kind::Need),
            2 => Ok(Kind::Add),
            3 => Ok(Kind::Set),
            4 => Ok(Kind::Copy),
            _ => Err(UnknownKind),
        }
    }
}

// The item that a Copy's operand numbers.
// kept: no Option: what may not change: the definition `Programs.numbered` is 0 for a number below zero.
pub(crate) fn numbered(operand: i16) -> usize
    ensures { result ≡ numbered operand }
{
    usize::try_from(operand).unwrap_or(0)
}

// Whether the number is that of an item.
fn in_table(operand: i16, count: usize) -> bool
    ensures { result ≡ in_table count operand }
{
    usize::try_from(operand).is_ok_and(|n| n < count)
}

impl Step {
    // Whether it takes the value of another item.
    fn is_copy(self) -> bool
        ensures { result ≡ is_copy self }
    {
        Kind::try_from(self.kind) == Ok(Kind::Copy)
    }

    // Whether its kind is unknown, or its operand no value where one is asked.
    pub(crate) fn is_bad(self) -> bool
        ensures { result ≡ bad_step self }
    {
        match Kind::try_from(self.kind) {
            Ok(Kind::Copy) => false,
            Ok(_) => !in_range(i32::from(self.operand)),
            Err(_) => true,
        }
    }

    // Whether it names an item that is not in the table.
    pub(crate) fn is_outside(self, count: usize) -> bool
        ensures { result ≡ outside count self }
    {
        count <= usize::from(self.item) || (self.is_copy() && !in_table(self.operand, count))
    }

    // Whether it names the item i.
    pub(crate) fn names(self, i: usize) -> bool
        ensures { result ≡ names self i }
    {
        usize::from(self.item) == i || (self.is_copy() && numbered(self.operand) == i)
    }
}
