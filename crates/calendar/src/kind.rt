// The kinds of days, and what a calendar is.
ghost use Rattle.std.specs.Prelude.{◌≡◌, ℕ};
ghost use Rattle.calendar.specs.declared.kind.DayKind.{DayKind};
ghost use Rattle.calendar.specs.Dates.{on_days};

#[derive(Clone, Copy, PartialEq, Eq, Debug)]
pub enum DayKind {
    Workday,
    Saturday,
    // a Sunday or a holiday
    Holiday,
}

// A calendar gives each day of 2000 to 2039 its kind.
pub trait Calendar {
    ghost kinds: { Self → ℕ → DayKind };

    fn kind(&self, day: u32) -> Option<DayKind>
        ensures { result ≡ on_days day (kinds self.now day) };
}
