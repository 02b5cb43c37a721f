// Extra holidays over any calendar.
ghost use Rattle.std.specs.Prelude.{◌≡◌, ◌≤◌, true, if◌then◌else◌};
ghost use Rattle.units.specs.Makings.{Makes};
ghost use Rattle.calendar.specs.declared.kind.DayKind.TheVariants.{Holiday};
ghost use Rattle.calendar.specs.ExtraDays.{rising, good_days, among};

use super::day::LAST_DAY;
use super::kind::{Calendar, DayKind};
use units::Refusal;

// At most 64 days of 2000 to 2039, each later than the one before, that count as holidays.
#[derive(Drop)]
pub struct ExtraDays<C: Calendar> {
    below: C,
    days: Vec<u32>,
    ghost good: { good_days days.items ≡ true },
}

// Whether the days are in order and none is past the last.
fn is_rising(days: &[u32]) -> bool
    ensures { result ≡ rising 0 days.now }
{
    match days {
        [] => true,
        [first, ..] => *first <= LAST_DAY && days.is_sorted_by(|a, b| a < b && *b <= LAST_DAY),
    }
}

impl<C: Calendar + Drop> ExtraDays<C> {
    // Refused where the days are more than 64, not in order, or past the last.
    pub fn new(below: C, days: Vec<u32>) -> Result<ExtraDays<C>, Refusal>
        ensures { Makes (good_days days.items ≡ true) (λ x. (x.below ≡ below) × (x.days ≡ days)) result }
    {
        if days.len() > 64 || !is_rising(&days) {
            return Err(Refusal::RuleBroken);
        }
        Ok(ExtraDays { below, days })
    }
}

impl<C: Calendar> Calendar for ExtraDays<C> {
    ghost kinds = { λ x n. (if among n x.days.items then Holiday else C.Calendar.kinds x.below n) };

    #[tactic(auto, using(crate::proofs::ExtraLists::among_known))]
    fn kind(&self, day: u32) -> Option<DayKind> {
        // `contains`, since 64 days are few, and it asks nothing of their order
        if self.days.contains(&day) {
            return Some(DayKind::Holiday);
        }
        self.below.kind(day)
    }
}
