// Days and their dates, to and fro.
ghost use Rattle.std.specs.Prelude.{◌≡◌, ◌≤◌, IfSome};
ghost use Rattle.calendar.specs.Dates.{date_of, day_of, day_of_year, on_days, RoundTrip};

use super::day::Day;
use super::year::Year;

#[derive(Clone, Copy, PartialEq, Eq, Debug)]
pub struct Date {
    pub year: u32,
    pub month: u32,
    pub day: u32,
}

impl Day {
    #[tactic(auto, unfolding(crate::specs::Dates::date_of))]
    pub(crate) fn date(self) -> Date
        ensures is { result ≡ date_of self.number }
        ensures from { 2000 ≤ result.year }
        ensures to { result.year ≤ 2039 }
    {
        let month = self.month();
        Date {
            year: month.year().number,
            month: month.place(),
            day: self.number - month.start().number + 1,
        }
    }

    // Its place in its year, 1 January at 0.
    #[tactic(auto, using(crate::proofs::Months::year_start_low, crate::proofs::Months::day_of_year_high), unfolding(crate::specs::Dates::day_of_year))]
    fn place_in_year(self) -> u32
        ensures is { result ≡ day_of_year self.number }
        ensures bound { result ≤ 365 }
    {
        let january = self.month().year().month_at(1);
        self.number - january.start().number
    }
}

// The date of a day.
pub fn date_of(day: u32) -> Option<Date>
    ensures { result ≡ on_days day (date_of day) }
{
    Day::new(day).map(Day::date)
}

// The day of a date, if 2000 to 2039 have such a date.
pub fn day_of(date: Date) -> Option<u32>
    ensures { result ≡ day_of date }
{
    let year = Year::new(date.year)?;
    let month = year.month(date.month)?;
    // an early return: with `then` the closure would need a clause of its own for the bound;
    // two tests, since with `contains` a caller's loop over days takes twice as long
    // an early return, since the two look-ups before it return early too
    if date.day < 1 || date.day > year.length(date.month) {
        return None;
    }
    Some(month.start().number + (date.day - 1))
}

// A day's place in its year, 1 January at 0.
pub fn day_of_year(day: u32) -> Option<u32>
    ensures is { result ≡ on_days day (day_of_year day) }
    ensures bound { IfSome result (λ days. days ≤ 365) }
{
    Day::new(day).map(Day::place_in_year)
}

// Days and dates go to and fro.
#[tactic(auto, using(crate::proofs::RoundTrips::round_trip))]
pub fn round_trip_stands()
    ensures { RoundTrip }
{}
