// Why something is turned down: one enum for all of the project, each rule with its number.
ghost use Rattle.std.specs.Prelude.{◌≡◌, Some};
ghost use Rattle.units.specs.Refusals.{number};
ghost use Rattle.units.specs.Texts.{refusal_text};

use std::error::Error;
use std::fmt;

#[derive(Clone, Copy, PartialEq, Eq, Debug)]
pub enum Refusal {
    // a journal line over 120 bytes, or badly written
    BadLine = 1,
    // no such date or month of 2000 to 2039, or a day past the last
    NoSuchDate = 2,
    // a value, row, list, window, layer or mix that breaks its rule, at its making
    RuleBroken = 3,
    // a number outside its range
    OutOfRange = 4,
    // no such profile, delivery, bill or mix
    NotFound = 5,
    // the profile's day is known already
    AlreadyKnown = 6,
    // the shelf does not take this number for the profile's day
    NumberNotTaken = 7,
    // a reading that is not after the point's last one
    NotAfterLastReading = 8,
    // the point's last delivery has not ended before the new one begins
    PointOccupied = 9,
    // dates that the delivery's model does not allow
    AgainstModel = 10,
    // the delivery is finished, or the day is settled already
    AlreadySettled = 11,
    // an entry that is not after the last one, or is after the balancing end
    EntryOutOfOrder = 12,
    // the delivery has been ended already
    AlreadyEnded = 13,
    // a bill's end before its first day, or after the end of use
    EndOutOfPlace = 14,
    // no reading of the day before the bill, or of its last day
    ReadingMissing = 15,
    // a day whose values are needed is not known
    DayUnknown = 16,
    // the group has no price for the month
    PriceMissing = 17,
    // the bill's state does not allow it, or the duty is another book's
    WrongBillState = 18,
    // the days from the bill's first on are not the next open ones
    NotFirstOpenDay = 19,
    // the group's price for the month stands already
    AlreadyPublished = 20,
    // an hour of the twelve months has no price
    HourMissing = 21,
    // the twelve months have no energy to weigh the prices by
    NoEnergy = 22,
    // the table has no place left
    TableFull = 23,
    // the answer does not fit the output buffer
    BufferTooShort = 24,
}

impl Refusal {
    pub fn number(self) -> u8
        ensures { result ≡ number self }
    {
        self as u8
    }
}

impl fmt::Display for Refusal {
    ghost output = { λ refusal. Some (refusal_text refusal) };

    fn fmt<W: fmt::Write>(&self, f: &mut fmt::Formatter<W>) -> fmt::Result {
        write!(f, "refusal {}", self.number())
    }
}

impl Error for Refusal {}
