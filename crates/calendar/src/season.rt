// The seasons of the load profiles.
ghost use Rattle.std.specs.Prelude.{◌≡◌};
ghost use Rattle.calendar.specs.Dates.{on_days};
ghost use Rattle.calendar.specs.Seasons.{season, season_at};

use super::date::{Date, date_of};

#[derive(Clone, Copy, PartialEq, Eq, Debug)]
pub enum Season {
    // 1 November to 20 March
    Winter,
    // 15 May to 14 September
    Summer,
    // the days between
    Transition,
}

// The season of a date.
fn season_at(date: Date) -> Season
    ensures { result ≡ season_at date.month date.day }
{
    let day = date.day;
    match date.month {
        ..=2 | 11.. => Season::Winter,
        3 if day <= 20 => Season::Winter,
        5 if day >= 15 => Season::Summer,
        6..=8 => Season::Summer,
        9 if day <= 14 => Season::Summer,
        _ => Season::Transition,
    }
}

// The season of a day.
pub fn season_of(day: u32) -> Option<Season>
    ensures { result ≡ on_days day (season day) }
{
    date_of(day).map(season_at)
}
