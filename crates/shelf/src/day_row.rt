// The quarter-hour values of one day.
ghost use Rattle.std.specs.Prelude.{◌≡◌, length};
ghost use Rattle.units.specs.Makings.{Makes};
ghost use Rattle.shelf.specs.Meaning.{Capped, at_quarter, day_sum};

use crate::bounds::LARGEST_VALUE;
use units::Refusal;

// 96 mean powers in tenths of a watt, none over 9,999.
#[derive(Clone, Copy)]
pub struct DayRow {
    values: [u16; 96],
    ghost full: { length values ≡ 96 },
    ghost capped: { Capped values },
}

impl DayRow {
    pub fn new(values: [u16; 96]) -> Result<DayRow, Refusal>
        ensures { Makes (Capped values) (λ row. row.values ≡ values) result }
    {
        // a `fold`, since a test that stops early takes the values one by one
        let largest = values.iter().fold(0, |largest, value| largest.max(*value));
        if largest > LARGEST_VALUE {
            return Err(Refusal::RuleBroken);
        }
        Ok(DayRow { values })
    }

    pub fn values(&self) -> [u16; 96]
        ensures { result ≡ self.now.values }
    {
        self.values
    }

    // None from quarter 96 on.
    pub fn at(&self, quarter: u32) -> Option<u16>
        ensures { result ≡ at_quarter self.now.values quarter }
    {
        self.values.get(quarter as usize).copied()
    }

    pub fn sum(&self) -> u32
        ensures { result ≡ day_sum self.now.values }
    {
        self.values.iter().map(|value| u32::from(*value)).sum()
    }
}
