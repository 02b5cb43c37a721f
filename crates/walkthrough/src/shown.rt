// How figures are shown to a reader.
use calendar::Date;
use std::fmt;
use units::Grains;

// Grains as kilowatt-hours, to the last digit.
#[derive(Clone, Copy)]
pub struct InKwh(pub Grains);

impl fmt::Display for InKwh {
    fn fmt<W: fmt::Write>(&self, f: &mut fmt::Formatter<W>) -> fmt::Result {
        let count = self.0.count();
        let size = count.unsigned_abs();
        let sign = if count < 0 { "-" } else { "" };
        let whole = size / 40_000_000;
        write!(f, "{sign}{whole}")?;
        // billionths of a kilowatt-hour, digit by digit, since a text to trim zeros of would be on the heap
        let mut rest = size % 40_000_000 * 25;
        if rest > 0 {
            write!(f, ".")?;
        }
        for _ in 0..9 {
            if rest == 0 {
                break;
            }
            let digit = rest / 100_000_000;
            write!(f, "{digit}")?;
            rest = rest % 100_000_000 * 10;
        }
        write!(f, " kWh")
    }
}

// A date with its year first.
#[derive(Clone, Copy)]
pub struct YearFirst(pub Date);

impl fmt::Display for YearFirst {
    fn fmt<W: fmt::Write>(&self, f: &mut fmt::Formatter<W>) -> fmt::Result {
        let year = self.0.year;
        let month = self.0.month;
        let day = self.0.day;
        write!(f, "{year}-{month:02}-{day:02}")
    }
}
