// The week with the nine holidays of the federal republic.
ghost use Rattle.std.specs.Prelude.{◌≡◌};
ghost use Rattle.calendar.specs.Kinds.{fixed_holiday, easter_holiday, holiday, federal_kind};

use super::date::Date;
use super::day::Day;
use super::kind::{Calendar, DayKind};
use super::plain_week::weekday_kind;
use super::year::Year;

#[derive(Clone, Copy)]
pub struct Federal;

fn is_fixed_holiday(date: Date) -> bool
    ensures { result ≡ fixed_holiday date.month date.day }
{
    matches!(
        (date.month, date.day),
        (1, 1) | (5, 1) | (10, 3) | (12, 25) | (12, 26)
    )
}

// Good Friday, Easter Monday, Ascension and Whit Monday.
fn is_easter_holiday(easter: Day, day: Day) -> bool
    ensures { result ≡ easter_holiday easter.number day.number }
{
    let (easter, day) = (easter.number, day.number);
    day + 2 == easter || day == easter + 1 || day == easter + 39 || day == easter + 50
}

fn is_holiday(day: Day) -> bool
    ensures { result ≡ holiday day.number }
{
    let date = day.date();
    let year = Year { number: date.year };
    is_fixed_holiday(date) || is_easter_holiday(year.easter(), day)
}

fn federal_kind(day: Day) -> DayKind
    ensures { result ≡ federal_kind day.number }
{
    if is_holiday(day) {
        DayKind::Holiday
    } else {
        weekday_kind(day.weekday())
    }
}

impl Calendar for Federal {
    ghost kinds = { λ _ n. federal_kind n };

    fn kind(&self, day: u32) -> Option<DayKind> {
        Day::new(day).map(federal_kind)
    }
}
