// Profiles whose days follow the seasons and the kinds of days of a calendar.
ghost use Rattle.std.specs.Prelude.{◌≡◌, ◌≤◌, vec_len};
ghost use Rattle.std.specs.Option.{option_map};
ghost use Rattle.shelf.specs.DayRows.{values_of};
ghost use Rattle.units.specs.Makings.{Makes};
ghost use Rattle.kinds.specs.Typeds.{typed_meaning};
ghost use Rattle.std.proofs.Common.{arith};
ghost use Rattle.kinds.specs.TypedDays.{typed_lawful};

use crate::known::refuse;
use crate::typed_profile::TypedProfile;
use calendar::{Calendar, season_of};
use shelf::{DayRow, Group, MOST_PROFILES, Shelf, Tell, TellShelf};
use units::Refusal;

#[derive(Drop)]
pub struct Typed<C: Calendar> {
    calendar: C,
    profiles: Vec<TypedProfile>,
    ghost few: { vec_len profiles ≤ 64 },
}

impl<C: Calendar + Drop> Typed<C> {
    pub fn new(calendar: C, profiles: Vec<TypedProfile>) -> Result<Typed<C>, Refusal>
        ensures { Makes (vec_len profiles ≤ 64) (λ s. (s.calendar ≡ calendar) × (s.profiles ≡ profiles)) result }
    {
        if profiles.len() > MOST_PROFILES as usize {
            return Err(Refusal::RuleBroken);
        }
        Ok(Typed { calendar, profiles })
    }
}

impl<C: Calendar> Typed<C> {
    fn known_row(&self, profile: u32, day: u32) -> Option<&DayRow>
        ensures { values_of (option_map (λ x. x.now) result) ≡ (typed_meaning (C.Calendar.kinds self.now.calendar) (self.now.profiles.items)).known profile day }
    {
        let typed = self.profiles.get(profile as usize)?;
        let season = season_of(day)?;
        let kind = self.calendar.kind(day)?;
        Some(typed.row(season, kind))
    }
}

impl<C: Calendar> Shelf for Typed<C> {
    ghost meaning = { λ s. typed_meaning (C.Calendar.kinds s.calendar) s.profiles.items };

    ghost lawful = { λ s. typed_lawful (C.Calendar.kinds s.calendar) s.profiles.items (omega (arith, s.few)) };

    fn count(&self) -> u32 {
        self.profiles.len() as u32
    }

    fn group(&self, profile: u32) -> Option<Group> {
        self.profiles.get(profile as usize).map(|typed| typed.group)
    }

    fn row(&self, profile: u32, day: u32) -> Option<DayRow> {
        self.known_row(profile, day).copied()
    }
}

impl<C: Calendar> TellShelf for Typed<C> {
    fn tell(&mut self, tell: Tell) -> Result<(), Refusal> {
        refuse(self, tell)
    }
}
