// Whether a book that is handed in is sound: the paragraph of document 01, row by row.
ghost use Rattle.std.specs.Prelude.{◌≡◌};
ghost use Rattle.conditions.specs.Places.{places as place_count};
ghost use Rattle.book.specs.Book.{good_counts};
ghost use Rattle.book.specs.SoundTest.{sound};

use crate::Book;
use crate::district_sound::sound_districts;
use crate::item_sound::{sound_row, zero_rows};
use crate::place_sound::sound_places;
use crate::tables::{DISTRICTS, ITEMS, Tables, places_of};

// Whether a book may have so many districts and items.
pub(crate) fn good_counts(districts: usize, count: usize) -> bool
    ensures { result ≡ good_counts districts count }
{
    (1..=DISTRICTS).contains(&districts) && (1..=ITEMS).contains(&count)
}

impl Book {
    // Whether the book is sound: the counts, then every row.
    pub fn is_sound(&self) -> bool
        ensures { result ≡ sound place_count self.now }
    {
        if !good_counts(self.districts, self.count) {
            return false;
        }
        let mut depended = 0;
        for x in &self.items[..self.count] {
            let its = places_of(*x);
            if !sound_row(self, *x, its) {
                return false;
            }
            depended |= its;
        }
        if !zero_rows(&self.items[self.count..]) {
            return false;
        }
        sound_districts(self) && sound_places(Tables::of(self, depended))
    }
}
