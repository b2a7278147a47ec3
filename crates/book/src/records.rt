// The step of an event on a district's record: it is lent that record alone, and changes its phase and transaction.
ghost use Rattle.std.specs.Prelude.{◌≡◌};
ghost use Rattle.book.specs.Records.{computing_on, busy_on, ready_record, give_up_record, hear_record};

use crate::Record;
use conditions::TransactionNumber;

// The phases of a record, and the record of an idle district.
// kept: numbers, and transaction 0 for idle: a book with others answers 15 (sound_record; refusals, "phase 3").
pub(crate) const IDLE: u8 = 0;

pub(crate) const COMPUTING: u8 = 1;

pub(crate) const WAITING: u8 = 2;

pub(crate) const RESTING: Record = Record {
    phase: IDLE,
    transaction: TransactionNumber(0),
};

// Whether the district is computing on the transaction.
pub(crate) fn computing_on(district: Record, n: TransactionNumber) -> bool
    ensures { result ≡ computing_on n.0 district }
{
    district.phase == COMPUTING && district.transaction == n
}

// Whether it is busy on it: computing or waiting.
pub(crate) fn busy_on(district: Record, n: TransactionNumber) -> bool
    ensures { result ≡ busy_on n.0 district }
{
    computing_on(district, n) || (district.phase == WAITING && district.transaction == n)
}

// Ready: computing to waiting.
pub(crate) fn wait(district: &mut Record)
    ensures { district.new ≡ ready_record district.old }
{
    district.phase = WAITING;
}

// Give up: to idle.
pub(crate) fn rest(district: &mut Record)
    ensures { district.new ≡ give_up_record district.old }
{
    *district = RESTING;
}

// Hear: to idle, where it is busy on the transaction.
pub(crate) fn hear(district: &mut Record, n: TransactionNumber)
    ensures { district.new ≡ hear_record n.0 district.old }
{
    if busy_on(*district, n) {
        rest(district);
    }
}
