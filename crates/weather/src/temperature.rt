// Which row of a temperature-dependent profile a day has.
ghost use Rattle.std.specs.Prelude.{◌≡◌};
ghost use Rattle.weather.specs.Temperatures.{temperature_row};

// The row of a day's mean temperature in tenths of a degree: one row for each degree from -17 to 17.
pub fn temperature_row(tenths: i32) -> Option<u32>
    ensures { result ≡ temperature_row tenths }
{
    (-500..=500)
        .contains(&tenths)
        .then(|| (tenths.div_euclid(10).clamp(-17, 17) + 17) as u32)
}
