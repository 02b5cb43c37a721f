// The days of the week.
ghost use Rattle.std.specs.Prelude.{◌≡◌};
ghost use Rattle.calendar.specs.Dates.{on_days};
ghost use Rattle.calendar.specs.Weeks.{weekday};

use super::day::Day;

#[derive(Clone, Copy, PartialEq, Eq, Debug)]
pub enum Weekday {
    Monday,
    Tuesday,
    Wednesday,
    Thursday,
    Friday,
    Saturday,
    Sunday,
}

const WEEK: [Weekday; 7] = [
    Weekday::Monday,
    Weekday::Tuesday,
    Weekday::Wednesday,
    Weekday::Thursday,
    Weekday::Friday,
    Weekday::Saturday,
    Weekday::Sunday,
];

impl Day {
    #[tactic(auto, unfolding(crate::specs::Weeks::weekday))]
    pub(crate) fn weekday(self) -> Weekday
        ensures { result ≡ weekday self.number }
    {
        WEEK[((self.number + 5) % 7) as usize]
    }
}

// The weekday of a day.
pub fn weekday_of(day: u32) -> Option<Weekday>
    ensures { result ≡ on_days day (weekday day) }
{
    Day::new(day).map(Day::weekday)
}
