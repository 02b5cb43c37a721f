// The week without holidays.
ghost use Rattle.std.specs.Prelude.{◌≡◌};
ghost use Rattle.calendar.specs.Kinds.{weekday_kind, plain_kind};

use super::kind::{Calendar, DayKind};
use super::week::{Weekday, weekday_of};

#[derive(Clone, Copy)]
pub struct PlainWeek;

pub(crate) fn weekday_kind(weekday: Weekday) -> DayKind
    ensures { result ≡ weekday_kind weekday }
{
    match weekday {
        Weekday::Saturday => DayKind::Saturday,
        Weekday::Sunday => DayKind::Holiday,
        _ => DayKind::Workday,
    }
}

impl Calendar for PlainWeek {
    ghost kinds = { λ _ n. plain_kind n };

    fn kind(&self, day: u32) -> Option<DayKind> {
        weekday_of(day).map(weekday_kind)
    }
}
