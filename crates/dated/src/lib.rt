// The one look-up of dated records: of one owner, the latest not after a date.
#![tactic(auto)]

#[cfg(test)]
mod tests;

ghost use Rattle.std.specs.Prelude.{◌≡◌, ℕ, ◌<◌, fold};
ghost use Rattle.dated.specs.Dates.{latest, Latest, nearer, Same};

// A record that belongs to someone from a date on. Dates are days or months, as long as all of a table's are the same.
pub trait Dated: Sized {
    ghost owner_of: { Self → ℕ };

    ghost date_of: { Self → ℕ };

    fn owner(&self) -> u32
        ensures { result ≡ owner_of self.now };

    fn date(&self) -> u32
        ensures { result ≡ date_of self.now };
}

// The owner's latest record not after a date; of several of one date, the one that stands last.
pub fn latest_of<T: Dated + Copy>(table: &[T], owner: u32, date: u32) -> Option<T>
    ensures value { result ≡ latest T.Dated.owner_of T.Dated.date_of owner date table.now }
    ensures means { Latest T.Dated.owner_of T.Dated.date_of owner date table.now result }
{
    table
        .iter()
        .fold(None, |found: Option<&T>, item| match found {
            best if item.owner() != owner || item.date() > date => best,
            Some(best) if best.date() > item.date() => Some(best),
            _ => Some(item),
        })
        .copied()
}

// The date of the owner's next record after a date: until then the look-up finds what it finds at `date`. Where there is no such record
// it is `u32::MAX`, and no None, since the look-up stays the same until then too.
pub fn next_change<T: Dated>(table: &[T], owner: u32, date: u32) -> u32
    ensures value { result ≡ fold (nearer T.Dated.owner_of T.Dated.date_of owner date) u32.MAX table.now }
    ensures past { date < u32.MAX → date < result }
    ensures same { Same T.Dated.owner_of T.Dated.date_of owner table.now date result }
{
    table.iter().fold(u32::MAX, |next, item| {
        if item.owner() == owner && item.date() > date {
            next.min(item.date())
        } else {
            next
        }
    })
}
