// The questions that every shelf of load profiles answers.
ghost use Rattle.std.specs.Prelude.{◌≡◌};
ghost use Rattle.std.specs.Option.{option_map};
ghost use Rattle.shelf.specs.DayRows.{values_of};
ghost use Rattle.shelf.specs.Meaning.{Meaning, Lawful, day_sum, quarter_of};

use crate::day_row::DayRow;
use crate::group::Group;

// Up to 64 load profiles, numbered from 0, on the days 0 to 14,609.
// A question takes profile and day apart, since nothing keeps questions, as lists of tells are kept.
pub trait Shelf {
    ghost meaning: { Self → Meaning };

    fn count(&self) -> u32
        ensures { result ≡ (meaning self.now).count };

    fn group(&self, profile: u32) -> Option<Group>
        ensures { result ≡ (meaning self.now).group profile };

    fn row(&self, profile: u32, day: u32) -> Option<DayRow>
        ensures { values_of result ≡ (meaning self.now).known profile day };

    fn value(&self, profile: u32, day: u32, quarter: u32) -> Option<u16>
        ensures { result ≡ quarter_of ((meaning self.now).known profile day) quarter }
    {
        self.row(profile, day)?.at(quarter)
    }

    fn day_sum(&self, profile: u32, day: u32) -> Option<u32>
        ensures { result ≡ option_map day_sum ((meaning self.now).known profile day) }
    {
        self.row(profile, day).map(|row| row.sum())
    }

    ghost lawful: { (s : Self) → Lawful (meaning s) };
}
