// Easter Sunday.
ghost use Rattle.std.specs.Prelude.{◌≡◌, ◌<◌, ◌≤◌};
ghost use Rattle.calendar.specs.Dates.{on_years};
ghost use Rattle.calendar.specs.Easter.{moon_age, to_sunday, easter, Easters};

use super::day::Day;
use super::week::Weekday;
use super::year::Year;

// The days to the next Sunday.
fn to_sunday(weekday: Weekday) -> u32
    ensures is { result ≡ to_sunday weekday }
    ensures bound { result ≤ 7 }
{
    match weekday {
        Weekday::Sunday => 7,
        _ => 6 - weekday as u32,
    }
}

impl Year {
    // How many days after 21 March its paschal full moon is.
    fn moon_age(self) -> u32
        ensures is { result ≡ moon_age self.number }
        ensures bound { result < 30 }
    {
        let golden = self.number % 19;
        let age = (19 * golden + 24) % 30;
        if age == 29 || age == 28 && golden > 10 {
            age - 1
        } else {
            age
        }
    }

    // Its Easter Sunday.
    #[tactic(auto, unfolding(crate::specs::Easter::easter, crate::specs::Easter::full_moon))]
    pub(crate) fn easter(self) -> Day
        ensures { result.number ≡ easter self.number }
    {
        let march = self.month_at(3);
        let full_moon = Day {
            number: march.start().number + 20 + self.moon_age(),
        };
        Day {
            number: full_moon.number + to_sunday(full_moon.weekday()),
        }
    }
}

// The day of Easter Sunday of a year of 2000 to 2039.
pub fn easter_sunday(year: u32) -> Option<u32>
    ensures { result ≡ on_years year (easter year) }
{
    Some(Year::new(year)?.easter().number)
}

// Easter is the Sunday after the full moon, and agrees with the well-known scheme.
#[tactic(auto, using(crate::proofs::Easters::easters))]
pub fn easter_stands()
    ensures { Easters }
{}
