// The hours of the year 2000, at one price by day and at another by night.
use std::alloc::Global;

// 1 January 2000.
pub const FIRST: u32 = 0;

const DAYS: usize = 366;

pub(crate) fn two_tariffs(heap: Global) -> anyhow::Result<Vec<Option<i32>>> {
    let hours = (0..24 * DAYS).map(|hour| {
        let by_day = (8..20).contains(&(hour % 24));
        Some(if by_day { 6_000 } else { 2_500 })
    });
    Ok(hours.collect(heap)?)
}
