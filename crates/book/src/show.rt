// Show: the line of an item's held pairs, written into a lent buffer.
ghost use Rattle.std.specs.Prelude.{◌≡◌, map};
ghost use Rattle.conditions.specs.Places.{places as place_count};
ghost use Rattle.conditions.specs.Written.{written};
ghost use Rattle.book.specs.Show.{line_of, line_shown, shown, show};

use crate::{Book, Open, Refusal};
use conditions::{PLACES, TransactionNumber};
use polyvalues::Polyvalue;

// The number of the transaction at each place.
fn numbers_at(places: [Open; PLACES]) -> [TransactionNumber; PLACES]
    ensures { result ≡ map (λ o. o.number) places }
{
    places.map(|o| o.number)
}

// Writes the line of a polyvalue, where these transactions are open.
fn write_held(held: Polyvalue, open: [Open; PLACES], buf: &mut [u8]) -> Result<usize, Refusal>
    ensures value { result ≡ line_shown buf.old (line_of place_count held «open») }
    ensures buf_after { buf.new ≡ written buf.old 0 (line_of place_count held «open») }
{
    held.write_text(numbers_at(open), buf, 0)
        .or(Err(Refusal::ShortBuffer))
}

impl Book {
    // Show, the call: the line of an item's held pairs is written at the buffer's start, and it gives where
    // that line ends.
    pub fn show(self, item: u8, buf: &mut [u8]) -> Result<usize, Refusal>
        ensures value { result ≡ show place_count self item buf.old }
        ensures buf_after { buf.new ≡ shown place_count self item buf.old }
    {
        if !self.is_sound() {
            return Err(Refusal::Unsound);
        }
        let i = usize::from(item);
        if self.count <= i {
            return Err(Refusal::NoItem);
        }
        write_held(self.items[i].held, self.open, buf)
    }
}
