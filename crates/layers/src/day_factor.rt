// A shelf with one profile scaled by a factor for each day of the year.
ghost use Rattle.std.specs.Prelude.{◌≡◌, slice_index};
ghost use Rattle.calendar.specs.Dates.{on_days, day_of_year};
ghost use Rattle.units.specs.Makings.{Makes};
ghost use Rattle.layers.specs.DayFactors.{FactorRule, scaled, scaled_row, factor_meaning};
ghost use Rattle.layers.specs.Scaling.{factor_lawful};

use calendar::day_of_year;
use shelf::{DayRow, Group, LARGEST_VALUE, Shelf, Tell, TellShelf};
use std::array;
use units::Refusal;

// The factors are in ten-thousandths, 1 January's first.
#[derive(Drop)]
pub struct DayFactor<A: Shelf> {
    below: A,
    profile: u32,
    factors: [u16; 366],
}

const LARGEST_FACTOR: u16 = 20_000;

// Rounded to the nearest tenth of a watt, halves up, and at most the largest value.
fn scaled(value: u16, factor: u16) -> u16
    ensures { result ≡ scaled factor value }
{
    ((u32::from(value) * u32::from(factor) + 5_000) / 10_000).min(u32::from(LARGEST_VALUE)) as u16
}

fn scaled_row(row: DayRow, factor: u16) -> [u16; 96]
    ensures { result ≡ scaled_row factor row.values }
{
    let values = row.values();
    array::from_fn(|quarter| scaled(values[quarter], factor))
}

impl<A: Shelf + Drop> DayFactor<A> {
    pub fn new(below: A, profile: u32, factors: [u16; 366]) -> Result<DayFactor<A>, Refusal>
        ensures { Makes (FactorRule (A.Shelf.meaning below).count profile factors) (λ s. (s.below ≡ below) × (s.profile ≡ profile) × (s.factors ≡ factors)) result }
    {
        if profile >= below.count() || factors.iter().any(|factor| *factor > LARGEST_FACTOR) {
            return Err(Refusal::RuleBroken);
        }
        Ok(DayFactor {
            below,
            profile,
            factors,
        })
    }
}

impl<A: Shelf> DayFactor<A> {
    fn factor_on(&self, day: u32) -> Option<u16>
        ensures { result ≡ on_days day (slice_index self.now.factors (day_of_year day)) }
    {
        day_of_year(day).map(|at| self.factors[at as usize])
    }
}

impl<A: Shelf> Shelf for DayFactor<A> {
    ghost meaning = { λ s. factor_meaning s.profile s.factors (A.Shelf.meaning s.below) };

    ghost lawful = { λ s. factor_lawful s.profile s.factors (A.Shelf.meaning s.below) (A.Shelf.lawful s.below) };

    fn count(&self) -> u32 {
        self.below.count()
    }

    fn group(&self, profile: u32) -> Option<Group> {
        self.below.group(profile)
    }

    fn row(&self, profile: u32, day: u32) -> Option<DayRow> {
        if profile != self.profile {
            return self.below.row(profile, day);
        }
        let row = self.below.row(profile, day)?;
        let factor = self.factor_on(day)?;
        DayRow::new(scaled_row(row, factor)).ok()
    }
}

impl<A: TellShelf> TellShelf for DayFactor<A> {
    fn tell(&mut self, tell: Tell) -> Result<(), Refusal> {
        self.below.tell(tell)
    }
}
