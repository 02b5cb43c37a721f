// Shelves of temperature-dependent profiles, whose days are told one by one.
ghost use Rattle.std.specs.Prelude.{◌≡◌, ℕ, ◌*◌, ◌<◌, ◌≤◌, length, replicate, IfSome, if◌then◌else◌, Some, None, vec_len, Decides};
ghost use Rattle.std.specs.Option.{option_map};
ghost use Rattle.shelf.specs.DayRows.{values_of, rows_of};
ghost use Rattle.units.specs.Makings.{MakesIn};
ghost use Rattle.weather.specs.Weathers.{WeatherRule, Chosen, holds, place, told_row, weather_meaning};
ghost use Rattle.std.proofs.Common.{arith};
ghost use Rattle.shelf.proofs.DayRowFacts.{rows_full};
ghost use Rattle.weather.specs.WeatherDays.{weather_lawful};

use crate::temperature::temperature_row;
use calendar::LAST_DAY;
use shelf::{DayRow, Group, MOST_PROFILES, Shelf, Tell, TellShelf};
use std::alloc::Global;
use units::{MakeError, Refusal};

// Up to 64 profiles, numbered from 0, each with a row for each degree from -17 to 17, and one window for all of them. For each profile
// and each of its days, `told` has the number of the row that was told, if any. Lists over all profiles, so that a making moves those
// of its caller and allocates once.
#[derive(Drop)]
pub struct Weather {
    groups: Vec<Group>,
    rows: Vec<DayRow>,
    first: u32,
    days: u32,
    told: Vec<Option<u8>>,
    ghost rule: { WeatherRule (vec_len groups) (vec_len rows) first days },
    ghost places: { length told.items ≡ length groups.items * days },
    ghost chosen: { Chosen told.items },
}

// The degrees that have a row, from -17 to 17.
const DEGREES: usize = 35;

const LONGEST_WINDOW: u32 = 1_200;

fn keeps_rule(profiles: usize, rows: usize, first: u32, days: u32) -> bool
    ensures { Decides result (WeatherRule profiles rows first days) }
{
    profiles <= MOST_PROFILES as usize
        && rows == DEGREES * profiles
        && days <= LONGEST_WINDOW
        && first <= LAST_DAY + 1 - days
}

impl Weather {
    // For each profile its group and, one profile after the other, its rows; and a window of `days` days, of which none is told yet.
    // Two lists, since a caller may give any number of either, and a wrong number is refused.
    pub fn new(
        heap: Global,
        groups: Vec<Group>,
        rows: Vec<DayRow>,
        first: u32,
        days: u32,
    ) -> Result<Weather, MakeError>
        ensures { MakesIn (WeatherRule (vec_len groups) (vec_len rows) first days)
            (λ s. (s.groups ≡ groups) × (s.rows ≡ rows) × (s.first ≡ first) × (s.days ≡ days) × (s.told.items ≡ replicate (vec_len groups * days) None)) result }
    {
        if !keeps_rule(groups.len(), rows.len(), first, days) {
            return Err(MakeError::Refused(Refusal::RuleBroken));
        }
        let told = vec![in heap; None; groups.len() * days as usize]?;
        Ok(Weather {
            groups,
            rows,
            first,
            days,
            told,
        })
    }

    // The place of a profile's day in `told`. An `if`, since each question would test the answer of `checked_sub` again.
    fn place(&self, profile: u32, day: u32) -> Option<usize>
        ensures value { result ≡ (if holds (length self.now.groups.items) self.now.first self.now.days profile day then Some (place self.now.first self.now.days profile day) else None) }
        ensures bound { IfSome result (λ at. at < vec_len self.now.told) }
    {
        if profile as usize >= self.groups.len() || day < self.first {
            return None;
        }
        let at = day - self.first;
        (at < self.days).then_some(profile as usize * self.days as usize + at as usize)
    }

    // The number of the row that was told for a profile's day.
    fn told_row(&self, profile: u32, day: u32) -> Option<u8>
        ensures { result ≡ told_row (length self.now.groups.items) self.now.first self.now.days self.now.told.items profile day }
    {
        self.told[self.place(profile, day)?]
    }

    // The row of a profile's day, where it was told.
    fn known_row(&self, profile: u32, day: u32) -> Option<&DayRow>
        ensures { values_of (option_map (λ x. x.now) result) ≡ (weather_meaning self.now.groups.items (rows_of self.now.rows.items) self.now.first self.now.days self.now.told.items).known profile day }
    {
        let row = self.told_row(profile, day)?;
        Some(&self.rows[DEGREES * profile as usize + usize::from(row)])
    }
}

impl Shelf for Weather {
    ghost meaning = { λ s. weather_meaning s.groups.items (rows_of s.rows.items) s.first s.days s.told.items };

    ghost lawful = { λ s. weather_lawful s.groups.items (rows_of s.rows.items) s.first s.days s.told.items (λ k h. rows_full s.rows.items k (omega (arith, s.rule.1))) s.rule.3 (omega (arith, s.rule.0)) s.chosen };

    fn count(&self) -> u32 {
        self.groups.len() as u32
    }

    fn group(&self, profile: u32) -> Option<Group> {
        self.groups.get(profile as usize).copied()
    }

    fn row(&self, profile: u32, day: u32) -> Option<DayRow> {
        self.known_row(profile, day).copied()
    }

    // As the trait has it, but for the copy of a row.
    fn day_sum(&self, profile: u32, day: u32) -> Option<u32> {
        self.known_row(profile, day).map(DayRow::sum)
    }
}

impl TellShelf for Weather {
    fn tell(&mut self, tell: Tell) -> Result<(), Refusal> {
        if tell.profile as usize >= self.groups.len() {
            return Err(Refusal::NotFound);
        }
        if tell.day > LAST_DAY {
            return Err(Refusal::NoSuchDate);
        }
        let at = self
            .place(tell.profile, tell.day)
            .ok_or(Refusal::NumberNotTaken)?;
        if self.told[at].is_some() {
            return Err(Refusal::AlreadyKnown);
        }
        let row = temperature_row(tell.number).ok_or(Refusal::NumberNotTaken)?;
        self.told[at] = Some(row as u8);
        Ok(())
    }
}
