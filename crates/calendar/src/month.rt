// The months of 2000 to 2039, counted from January 2000, and the days that they begin and end on.
ghost use Rattle.std.specs.Prelude.{◌≡◌, ◌+◌, ◌-◌, ◌*◌, ◌≤◌, nat_le, is_some, IfSome};
ghost use Rattle.calendar.specs.Dates.{month_start, month_end, length_of, month_of, month_number, year_of, place_of, InMonth, on_days, on_months};

use super::day::{Day, LAST_DAY};
use super::year::Year;

// December 2039
pub const LAST_MONTH: u32 = 479;

// the days of a common year before each month
const BEFORE: [u32; 12] = [0, 31, 59, 90, 120, 151, 181, 212, 243, 273, 304, 334];

// A month that there is. A type beside `Day`, since nothing but its making is like a day's.
#[derive(Clone, Copy)]
pub(crate) struct Month {
    pub(crate) number: u32,
    ghost known: { number ≤ 479 },
}

impl Month {
    pub(crate) fn new(number: u32) -> Option<Month>
        ensures variant { is_some result ≡ nat_le number 479 }
        ensures value { IfSome result (λ month. month.number ≡ number) }
    {
        // an early return: with `then` the closure would need a clause of its own for the bound
        if number > LAST_MONTH {
            return None;
        }
        Some(Month { number })
    }

    pub(crate) fn year(self) -> Year
        ensures { result.number ≡ year_of self.number }
    {
        Year {
            number: 2000 + self.number / 12,
        }
    }

    // Its place in its year, 1 for January.
    pub(crate) fn place(self) -> u32
        ensures { result ≡ place_of self.number }
    {
        self.number % 12 + 1
    }

    // Its first day. It and the months after it end by the last day.
    #[tactic(auto, using(crate::proofs::Months::start_is, crate::proofs::Months::room))]
    pub(crate) fn start(self) -> Day
        ensures is { result.number ≡ month_start self.number }
        ensures room { result.number + length_of self.number + 28 * (479 - self.number) ≤ 14610 }
    {
        let years = self.number / 12;
        let place = self.number % 12;
        // each fourth year is a leap year, as 2000 is one and 2100 lies past them
        let leap_day = u32::from(place >= 2 && years % 4 == 0);
        Day {
            number: 365 * years + (years + 3) / 4 + BEFORE[place as usize] + leap_day,
        }
    }

    // Its last day, the one before the next month's first.
    #[tactic(auto, using(crate::proofs::Months::first_next, crate::proofs::Months::length_low, crate::proofs::Months::last_end))]
    pub(crate) fn end(self) -> Day
        ensures { result.number ≡ month_end self.number }
    {
        if self.number == LAST_MONTH {
            return Day { number: LAST_DAY };
        }
        let next = Month {
            number: self.number + 1,
        };
        Day {
            number: next.start().number - 1,
        }
    }
}

impl Day {
    // The month that it lies in.
    pub(crate) fn month(self) -> Month
        ensures is { result.number ≡ month_of self.number }
        ensures inside { InMonth result.number self.number }
    {
        // k months from January 2000 on have at most (61 k + 1) / 2 days, so the first of these begins in time;
        // a `for`, since `find` would need a closure with a contract of its own
        for number in 2 * self.number / 61..LAST_MONTH {
            let next = Month { number: number + 1 };
            if self.number < next.start().number {
                return Month { number };
            }
        }
        Month { number: LAST_MONTH }
    }
}

// The month of a day.
pub fn month_of(day: u32) -> Option<u32>
    ensures { result ≡ on_days day (month_of day) }
{
    Some(Day::new(day)?.month().number)
}

// The number of a year's month, counted from January 2000.
pub fn month_number(year: u32, month: u32) -> Option<u32>
    ensures { result ≡ month_number year month }
{
    Some(Year::new(year)?.month(month)?.number)
}

// The first day of a month.
pub fn first_day(month: u32) -> Option<u32>
    ensures { result ≡ on_months month (month_start month) }
{
    Some(Month::new(month)?.start().number)
}

// The last day of a month.
pub fn last_day(month: u32) -> Option<u32>
    ensures { result ≡ on_months month (month_end month) }
{
    Some(Month::new(month)?.end().number)
}
