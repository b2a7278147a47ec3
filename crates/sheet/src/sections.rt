// The sections of a sheet: districts, items and events.
ghost use Rattle.std.specs.Prelude.{◌≡◌, List, ℕ, [], ◌≤◌, IfOk, IfErr};
ghost use Rattle.book.specs.Book.{most_items};
ghost use Rattle.book.specs.Openings.{openings_of};
ghost use Rattle.sheet.specs.declared.events.Event.{Event};
ghost use Rattle.sheet.specs.Readers.{wrong, right, repeat, one_more};
ghost use Rattle.sheet.specs.Events.{event};
ghost use Rattle.sheet.specs.Sections.{code, districts, item, items, events, sheet as whole};
ghost use Rattle.sheet.specs.Told.{Reads, ReadsAs, events_of, sheet_of};

use crate::readers::{Reader, Wrong};
use book::{DISTRICTS, ITEMS, Opening, Openings};

// Where the first event stands, and how many there are.
#[derive(Clone, Copy)]
pub(crate) struct EventsAt {
    pub(crate) first: usize,
    pub(crate) count: usize,
}

// What a sheet says.
#[derive(Clone, Copy)]
pub(crate) struct Sheet {
    pub(crate) districts: usize,
    pub(crate) items: Openings,
    pub(crate) events: EventsAt,
}

impl Reader<'_> {
    // District codes, each above the one before it: the last of them.
    #[tactic(auto, using(crate::proofs::Repeating::repeat_more, crate::proofs::Repeating::repeat_done, crate::proofs::Reading::code_of))]
    fn codes(&mut self, n: usize) -> Result<u8, Wrong>
        ensures { Reads (repeat n code 0) self.old self.new result }
    {
        let mut last = 0;
        for _ in 0..n {
            let at = self.at;
            let code = self.byte()?;
            if code <= last {
                return Err(Wrong(at));
            }
            last = code;
        }
        Ok(last)
    }

    // The count of districts.
    #[tactic(auto, unfolding(crate::specs::Sections::districts))]
    fn districts(&mut self) -> Result<usize, Wrong>
        ensures { Reads districts self.old self.new result }
    {
        let count = self.byte_between(1, DISTRICTS)?;
        self.codes(count)?;
        Ok(count)
    }

    // An item, where there are so many districts.
    #[tactic(auto, using(crate::proofs::Reading::tested_byte), unfolding(crate::specs::Sections::item))]
    fn item(&mut self, districts: usize) -> Result<Opening, Wrong>
        ensures { Reads (item districts) self.old self.new result }
    {
        let at = self.at;
        let district = self.byte()?;
        if districts <= usize::from(district) {
            return Err(Wrong(at));
        }
        let value = self.value()?;
        Ok(Opening { district, value })
    }

    // So many items.
    #[tactic(auto, using(crate::proofs::Repeating::repeat_more, crate::proofs::Repeating::repeat_done), unfolding(crate::specs::Readers::one_more, book::specs::Openings::openings_of))]
    fn items_from(&mut self, districts: usize, n: usize) -> Result<Openings, Wrong>
        requires { n ≤ most_items }
        ensures reads { ReadsAs openings_of (repeat n (one_more (item districts)) []) self.old self.new result }
        ensures count_le_most_items { IfOk result (λ t. t.count ≤ most_items) }
    {
        let none = Opening {
            district: 0,
            value: 0,
        };
        let mut items = [none; ITEMS];
        for row in &mut items[..n] {
            *row = self.item(districts)?;
        }
        Ok(Openings { count: n, items })
    }

    // The items.
    #[tactic(auto, unfolding(crate::specs::Sections::items))]
    fn items(&mut self, districts: usize) -> Result<Openings, Wrong>
        ensures reads { ReadsAs openings_of (items districts) self.old self.new result }
        ensures count_le_most_items { IfOk result (λ t. t.count ≤ most_items) }
    {
        let count = self.byte_between(1, ITEMS)?;
        self.items_from(districts, count)
    }

    // So many events.
    #[tactic(auto, using(crate::proofs::Repeating::repeat_more, crate::proofs::Repeating::repeat_done), unfolding(crate::specs::Readers::one_more))]
    fn events_from(&mut self, n: usize) -> Result<(), Wrong>
        ensures { (es : List Event) × (ReadsAs (λ _. es) (repeat n (one_more event) []) self.old self.new result) }
    {
        for _ in 0..n {
            self.event()?;
        }
        Ok(())
    }

    // The events.
    #[tactic(auto, unfolding(crate::specs::Sections::events))]
    fn events(&mut self) -> Result<EventsAt, Wrong>
        ensures { (es : List Event) × (ReadsAs (λ x. events_of x es) events self.old self.new result) }
    {
        let count = usize::from(self.word()?);
        let first = self.at;
        self.events_from(count)?;
        Ok(EventsAt { first, count })
    }
}

// The whole sheet: its sections, and no byte left over.
#[tactic(auto, using(crate::proofs::Reading::end_past, crate::proofs::Reading::end_left), unfolding(crate::specs::Sections::sheet))]
pub(crate) fn whole(sheet: &[u8]) -> Result<Sheet, Wrong>
    ensures ok { IfOk result (λ x. (es : List Event) × (at : ℕ) × (rest : List ℕ) × (whole sheet.now ≡ right (sheet_of x es) at rest)) }
    ensures err { IfErr result (λ e. whole sheet.now ≡ wrong e.0) }
    ensures count_le_most_items { IfOk result (λ x. x.items.count ≤ most_items) }
{
    let n = sheet.len();
    let mut reader = Reader { sheet, at: 0 };
    let districts = reader.districts()?;
    let items = reader.items(districts)?;
    let events = reader.events()?;
    let end = reader.at;
    if end < n {
        return Err(Wrong(end));
    }
    Ok(Sheet {
        districts,
        items,
        events,
    })
}
