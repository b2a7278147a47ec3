// Programs: the steps that lent bytes stand for, and the values after them.
ghost use Rattle.std.specs.Prelude.{◌≡◌, false, ◌≤◌, ◌<◌, length, get_or};
ghost use Rattle.book.specs.Book.{most_items};
ghost use Rattle.book.specs.Programs.{steps, run, touches, some_step};
ghost use Rattle.book.specs.Begin.{most_steps, bad_length, bad_step, bad_program, outside};
ghost use Rattle.book.specs.States.{no_step, steps_of, program_of, state_of, state_rows, ran};

use crate::Step;
use crate::state::State;
use polyvalues::of_bytes;

// How many steps a program may have.
const STEPS: usize = 8;

// The row past the last step.
const NO_STEP: Step = Step {
    kind: 0,
    item: 0,
    operand: 0,
};

// The first `count` steps count; the rows past them are zero.
// kept: no plainer as one struct with `Openings`: docs and `openings_of` name that one; fixed memory is a rule.
#[derive(Clone, Copy)]
pub struct Program {
    count: usize,
    steps: [Step; STEPS],
}

// The number of the first step that declined, from 1 on.
#[derive(Clone, Copy, PartialEq, Eq)]
pub struct Declined(pub usize);

// The step that stands in the bytes from 4 j on.
fn step_at(bytes: &[u8], j: usize) -> Step
    requires { j < length (steps bytes.now) }
    ensures { result ≡ get_or (steps bytes.now) j no_step }
{
    let i = 4 * j;
    let kind = bytes[i];
    let item = bytes[i + 1];
    let high = bytes[i + 2];
    let low = bytes[i + 3];
    Step {
        kind,
        item,
        operand: of_bytes(high, low),
    }
}

// Whether the bytes make no whole number of steps, none, or too many.
fn bad_length(bytes: &[u8]) -> bool
    ensures { result ≡ bad_length bytes.now }
{
    let n = bytes.len();
    if n % 4 != 0 {
        return true;
    }
    if n == 0 {
        return true;
    }
    STEPS < n / 4
}

// The program that the bytes stand for.
pub(crate) fn read(bytes: &[u8]) -> Program
    requires { length (steps bytes.now) ≤ most_steps }
    ensures { result ≡ program_of (steps bytes.now) }
{
    let n = bytes.len() / 4;
    let mut steps = [NO_STEP; STEPS];
    for (i, step) in steps[..n].iter_mut().enumerate() {
        *step = step_at(bytes, i);
    }
    Program { count: n, steps }
}

// Whether a program is refused before anything else is asked of it.
pub(crate) fn bad_program(bytes: &[u8]) -> bool
    ensures { result ≡ bad_program bytes.now }
{
    bad_length(bytes) || read(bytes).has_bad_step()
}

impl Program {
    // The steps that count: any count may be handed in.
    fn steps(&self) -> &[Step]
        ensures { result.now ≡ steps_of self.now }
    {
        &self.steps[..self.count.min(STEPS)]
    }

    // Whether a step is bad.
    fn has_bad_step(self) -> bool
        ensures { result ≡ some_step bad_step (steps_of self) }
    {
        self.steps().iter().any(|x| x.is_bad())
    }

    // Whether a step names an item that is not in the table.
    pub(crate) fn is_outside(self, count: usize) -> bool
        ensures { result ≡ some_step (outside count) (steps_of self) }
    {
        self.steps().iter().any(|x| x.is_outside(count))
    }

    // Whether a step names the item.
    pub(crate) fn touches(self, item: usize) -> bool
        ensures { result ≡ touches (steps_of self) item }
    {
        self.steps().iter().any(|x| x.names(item))
    }

    // The program run on a state: a program that declines changes nothing at all.
    pub(crate) fn run(self, state: &mut State) -> Result<(), Declined>
        requires { some_step (outside most_items) (steps_of self) ≡ false }
        ensures answer { result ≡ ran (steps_of self) (state_of state.old) }
        ensures values { state.new ≡ state_rows (run (steps_of self) (state_of state.old)) }
    {
        let steps = self.steps();
        let mut now = *state;
        for (i, x) in steps.iter().enumerate() {
            now = now.after(*x).ok_or(Declined(i + 1))?;
        }
        *state = now;
        Ok(())
    }
}
