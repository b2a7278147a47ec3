// Conditions: sets of assignments to the tag places, and how one prints.
//
// Every function is proved to return what its definition in `specs/` says, for every argument. No
// public function has a `requires`, and nothing is assumed. A place past the last one is no place of
// an assignment: it is completed in none, setting it changes nothing, and nothing depends on it.
#![tactic(auto)]

mod condition;
mod place;
mod product;
mod table;
mod text;

pub use condition::Condition;
pub use place::{ASSIGNMENTS, PLACES, Place, TransactionNumber};
pub use product::Product;
pub use text::{NoRoom, decimal_len, room, write_decimal};
