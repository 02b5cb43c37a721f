// One profile with one value in every quarter hour of every day.
ghost use Rattle.std.specs.Prelude.{◌≡◌, ◌≤◌, ◌&&◌, ◌==◌, nat_le, if◌then◌else◌};
ghost use Rattle.units.specs.Makings.{Makes};
ghost use Rattle.kinds.specs.Flats.{flat_meaning};
ghost use Rattle.kinds.specs.FlatRows.{flat_lawful};

use crate::known::refuse;
use calendar::LAST_DAY;
use shelf::{DayRow, Group, LARGEST_VALUE, Shelf, Tell, TellShelf};
use units::Refusal;

#[derive(Clone, Copy)]
pub struct Flat {
    value: u16,
    group: Group,
    ghost capped: { value ≤ 9999 },
}

impl Flat {
    pub fn new(value: u16, group: Group) -> Result<Flat, Refusal>
        ensures { Makes (value ≤ 9999) (λ flat. (flat.value ≡ value) × (flat.group ≡ group)) result }
    {
        if value > LARGEST_VALUE {
            return Err(Refusal::RuleBroken);
        }
        Ok(Flat { value, group })
    }

    // The value of a profile's day, where they exist.
    fn value_on(&self, profile: u32, day: u32) -> Option<u16>
        ensures { result ≡ (if profile == 0 && nat_le day 14609 then Some self.now.value else None) }
    {
        (profile == 0 && day <= LAST_DAY).then_some(self.value)
    }
}

impl Shelf for Flat {
    ghost meaning = { λ s. flat_meaning s.value s.group };

    ghost lawful = { λ s. flat_lawful s.value s.group s.capped };

    fn count(&self) -> u32 {
        1
    }

    fn group(&self, profile: u32) -> Option<Group> {
        (profile == 0).then_some(self.group)
    }

    fn row(&self, profile: u32, day: u32) -> Option<DayRow> {
        let value = self.value_on(profile, day)?;
        DayRow::new([value; 96]).ok()
    }

    fn day_sum(&self, profile: u32, day: u32) -> Option<u32> {
        self.value_on(profile, day)
            .map(|value| 96 * u32::from(value))
    }
}

impl TellShelf for Flat {
    fn tell(&mut self, tell: Tell) -> Result<(), Refusal> {
        refuse(self, tell)
    }
}
