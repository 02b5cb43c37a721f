// A profile with a row for each season and kind of day.
ghost use Rattle.std.specs.Prelude.{◌≡◌};
ghost use Rattle.kinds.specs.TypedProfiles.{season_row, typed_row};

use calendar::{DayKind, Season};
use shelf::{DayRow, Group};

// The rows of one season.
#[derive(Clone, Copy)]
pub struct SeasonRows {
    pub workday: DayRow,
    pub saturday: DayRow,
    pub holiday: DayRow,
}

#[derive(Clone, Copy)]
pub struct TypedProfile {
    pub group: Group,
    pub winter: SeasonRows,
    pub summer: SeasonRows,
    pub transition: SeasonRows,
}

impl SeasonRows {
    pub fn row(&self, kind: DayKind) -> &DayRow
        ensures { result.now ≡ season_row self.now kind }
    {
        match kind {
            DayKind::Workday => &self.workday,
            DayKind::Saturday => &self.saturday,
            DayKind::Holiday => &self.holiday,
        }
    }
}

impl TypedProfile {
    pub fn row(&self, season: Season, kind: DayKind) -> &DayRow
        ensures { result.now ≡ typed_row self.now season kind }
    {
        match season {
            Season::Winter => self.winter.row(kind),
            Season::Summer => self.summer.row(kind),
            Season::Transition => self.transition.row(kind),
        }
    }
}
