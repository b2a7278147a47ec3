// The sheet: its bytes, the book that it opens, its events, and the line that each event prints.
//
// Every public function is proved to return what its definition in `specs/` says, for every argument:
// any bytes and any place may be handed in. No public function has a `requires`, and nothing is assumed.
#![tactic(auto)]

mod events;
mod lines;
mod opening;
mod playing;
mod readers;
mod sections;

pub use events::{Event, Found, event_at};
pub use lines::{LONGEST_LINE, write_refusal};
pub use opening::{MOST_BYTES, Opened, open};
pub use playing::{Played, play};
pub use readers::Wrong;
