// What a step does to the values of the items.
ghost use Rattle.std.specs.Prelude.{◌≡◌, false, ◌<◌, ◌+ℤ◌};
ghost use Rattle.book.specs.Book.{most_items};
ghost use Rattle.book.specs.Programs.{takes};
ghost use Rattle.book.specs.Begin.{outside};
ghost use Rattle.book.specs.States.{state_of, state_rows, added, stepped};

use crate::Step;
use crate::steps::{Kind, numbered};
use crate::tables::ITEMS;
use polyvalues::{below, sum};

// A value of an item.
#[derive(Clone, Copy)]
pub struct Value(pub i16);

// A value for each item.
#[derive(Clone, Copy)]
pub struct State {
    pub values: [Value; ITEMS],
}

impl State {
    // The item takes the value.
    pub(crate) fn with(mut self, item: usize, value: Value) -> State
        requires { item < most_items }
        ensures { result ≡ state_rows (takes (state_of self) item value.0) }
    {
        self.values[item] = value;
        self
    }

    // The item takes the sum, or the step declines.
    fn with_sum(self, item: usize, old: Value, operand: i16) -> Option<State>
        requires { item < most_items }
        ensures { result ≡ added (state_of self) item (old.0 +ℤ operand) }
    {
        let v = sum(old.0, operand)?;
        Some(self.with(item, Value(v)))
    }

    // The state after the step, if the step does not decline.
    pub(crate) fn after(self, x: Step) -> Option<State>
        requires { outside most_items x ≡ false }
        ensures { result ≡ stepped x (state_of self) }
    {
        let item = usize::from(x.item);
        let old = self.values[item];
        match Kind::try_from(x.kind) {
            Ok(Kind::Need) => {
                if below(old.0, x.operand) {
                    None
                } else {
                    Some(self)
                }
            }
            Ok(Kind::Add) => self.with_sum(item, old, x.operand),
            Ok(Kind::Set) => Some(self.with(item, Value(x.operand))),
            Ok(Kind::Copy) => Some(self.with(item, self.values[numbered(x.operand)])),
            Err(_) => Some(self),
        }
    }
}
