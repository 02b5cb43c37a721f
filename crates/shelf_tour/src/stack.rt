// A stack of shelves: two typed profiles and two of the weather, the third of the four scaled day by day.
use calendar::{ExtraDays, Federal, Season};
use kinds::{SeasonRows, Typed, TypedProfile};
use layers::{DayFactor, Pair};
use shelf::{DayRow, Group};
use std::alloc::Global;
use std::array;
use units::{MakeError, Refusal};
use weather::Weather;

// The first day of the weather's window, 20 December 2024.
pub const FIRST: u32 = 9_120;

const CHRISTMAS_EVE: u32 = 9_124;

const NEW_YEARS_EVE: u32 = 9_131;

pub type Stack = DayFactor<Pair<Typed<ExtraDays<Federal>>, Weather>>;

fn made_up_row(seed: u32) -> Result<DayRow, Refusal> {
    let first = seed % 9_000;
    DayRow::new(array::from_fn(|quarter| { ((first + 157 * quarter as u32) % 9_000) as u16 }))
}

fn season_rows(profile: u8, season: Season) -> Result<SeasonRows, Refusal> {
    let seed = 900 * u32::from(profile) + 300 * season as u32;
    Ok(SeasonRows {
        workday: made_up_row(seed)?,
        saturday: made_up_row(seed + 100)?,
        holiday: made_up_row(seed + 200)?,
    })
}

fn typed_profile(profile: u8, group: Group) -> Result<TypedProfile, Refusal> {
    Ok(TypedProfile {
        group,
        winter: season_rows(profile, Season::Winter)?,
        summer: season_rows(profile, Season::Summer)?,
        transition: season_rows(profile, Season::Transition)?,
    })
}

fn typed(heap: Global) -> Result<Typed<ExtraDays<Federal>>, MakeError> {
    let extra = [CHRISTMAS_EVE, NEW_YEARS_EVE].to_vec(heap)?;
    let calendar = ExtraDays::new(Federal, extra)?;
    let profiles = [typed_profile(0, Group::S)?, typed_profile(1, Group::S)?].to_vec(heap)?;
    Ok(Typed::new(calendar, profiles)?)
}

fn weather(heap: Global) -> Result<Weather, MakeError> {
    let rows = (0..70)
        .map(|k: u32| -> Result<DayRow, MakeError> { Ok(made_up_row(100 * k + 50)?) })
        .try_collect(heap)?;
    let groups = [Group::T, Group::T].to_vec(heap)?;
    Weather::new(heap, groups, rows, FIRST, 30)
}

fn factors() -> [u16; 366] {
    array::from_fn(|day| (8_000 + 30 * day) as u16)
}

pub(crate) fn stacked(heap: Global) -> Result<Stack, MakeError> {
    let pair = Pair::new(typed(heap)?, weather(heap)?)?;
    Ok(DayFactor::new(pair, 2, factors())?)
}
