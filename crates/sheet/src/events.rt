// The events of a sheet, each by the place where it stands.
ghost use Rattle.std.specs.Prelude.{◌≡◌, drop};
ghost use Rattle.sheet.specs.Events.{program, fields, event, event_at};
ghost use Rattle.sheet.specs.Told.{Reads, ReadsAs, told_event};
ghost use Rattle.sheet.specs.Readers.{word, any};

use crate::readers::{Reader, Wrong};
use conditions::TransactionNumber;

// An event. The bytes of a begin's program stand in the sheet from `from` up to `to`.
#[derive(Clone, Copy, Debug, PartialEq, Eq)]
pub enum Event {
    Begin {
        from: usize,
        to: usize,
    },
    Ready {
        number: TransactionNumber,
        district: u8,
    },
    GiveUp {
        number: TransactionNumber,
        district: u8,
    },
    Complete {
        number: TransactionNumber,
    },
    Abort {
        number: TransactionNumber,
    },
    Hear {
        number: TransactionNumber,
        district: u8,
    },
    Show {
        item: u8,
    },
}

// An event that was found, and the place behind it.
#[derive(Clone, Copy, Debug, PartialEq, Eq)]
pub struct Found {
    pub event: Event,
    pub next: usize,
}

impl Reader<'_> {
    // A begin: the count of its program's steps, and their bytes.
    #[tactic(auto, unfolding(crate::specs::Events::program))]
    #[inline(always)]
    fn program(&mut self) -> Result<Event, Wrong>
        ensures { Reads program self.old self.new result }
    {
        let steps = self.byte()?;
        let from = self.at;
        self.part(4 * usize::from(steps))?;
        Ok(Event::Begin { from, to: self.at })
    }

    // A transaction number.
    #[inline(always)]
    fn number(&mut self) -> Result<TransactionNumber, Wrong>
        ensures { ReadsAs (λ n. n.0) (word any) self.old self.new result }
    {
        Ok(TransactionNumber(self.word()?))
    }

    // What stands behind an event's kind.
    // kept: no plainer: a kind (`fields`) becomes its `Event` here; an enum between would name all seven twice.
    #[tactic(auto, unfolding(crate::specs::Events::fields, crate::specs::Events::at_district, crate::specs::Events::on_number, crate::specs::Events::of_item))]
    #[inline(always)]
    fn fields(&mut self, kind: usize) -> Result<Event, Wrong>
        ensures { Reads (fields kind) self.old self.new result }
    {
        match kind {
            1 => self.program(),
            2 => Ok(Event::Ready {
                number: self.number()?,
                district: self.byte()?,
            }),
            3 => Ok(Event::GiveUp {
                number: self.number()?,
                district: self.byte()?,
            }),
            4 => Ok(Event::Complete {
                number: self.number()?,
            }),
            5 => Ok(Event::Abort {
                number: self.number()?,
            }),
            7 => Ok(Event::Show { item: self.byte()? }),
            _ => Ok(Event::Hear {
                number: self.number()?,
                district: self.byte()?,
            }),
        }
    }

    // An event.
    #[tactic(auto, unfolding(crate::specs::Events::event))]
    #[inline(always)]
    pub(crate) fn event(&mut self) -> Result<Event, Wrong>
        ensures { Reads event self.old self.new result }
    {
        let kind = self.byte_between(1, 7)?;
        self.fields(kind)
    }
}

// What stands at a place of the sheet: an event, and the place behind it.
// kept: what may not change: the public signature has the sheet and the place side by side.
#[tactic(auto, unfolding(crate::specs::Events::event_at))]
pub fn event_at(sheet: &[u8], at: usize) -> Result<Found, Wrong>
    ensures value { result ≡ event_at sheet.now at }
    ensures sheet_value { event at (drop at sheet.now) ≡ told_event sheet.now result }
{
    let mut reader = Reader { sheet, at };
    let event = reader.event()?;
    Ok(Found {
        event,
        next: reader.at,
    })
}
