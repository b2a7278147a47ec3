// Sets of districts, one bit for each.
ghost use Rattle.std.specs.Prelude.{◌≡◌, ◌<◌};
ghost use Rattle.conditions.specs.Sets.{member};
ghost use Rattle.book.specs.Book.{most_districts, including};

use crate::tables::DISTRICTS;

// Whether the district is in a set of districts.
// kept: no plainer as one with `Condition::contains`: a trait of words with its laws, for one line.
pub(crate) fn has(set: u8, d: usize) -> bool
    ensures { result ≡ member set d }
{
    d < DISTRICTS && (set >> d) & 1 == 1
}

// The set and the district.
pub(crate) fn including(set: u8, d: usize) -> u8
    requires { d < most_districts }
    ensures { result ≡ including set d }
{
    set | (1u8 << d)
}
