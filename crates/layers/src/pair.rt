// Two shelves as one.
ghost use Rattle.std.specs.Prelude.{◌≡◌, ◌+◌, ◌≤◌};
ghost use Rattle.units.specs.Makings.{Makes};
ghost use Rattle.layers.specs.Pairs.{joined, pair_meaning};
ghost use Rattle.layers.specs.Joined.{pair_lawful};

use shelf::{DayRow, Group, MOST_PROFILES, Shelf, Tell, TellShelf};
use units::Refusal;

// The second's profiles are numbered after the first's.
#[derive(Drop)]
pub struct Pair<A: Shelf, B: Shelf> {
    first: A,
    second: B,
}

impl<A: Shelf + Drop, B: Shelf + Drop> Pair<A, B> {
    pub fn new(first: A, second: B) -> Result<Pair<A, B>, Refusal>
        ensures { Makes ((A.Shelf.meaning first).count + (B.Shelf.meaning second).count ≤ 64) (λ pair. (pair.first ≡ first) × (pair.second ≡ second)) result }
    {
        if first.count() + second.count() > MOST_PROFILES {
            return Err(Refusal::RuleBroken);
        }
        Ok(Pair { first, second })
    }
}

// A profile of one of the shelves, by its number there.
#[derive(Clone, Copy)]
enum Half {
    First(u32),
    Second(u32),
}

impl<A: Shelf, B: Shelf> Pair<A, B> {
    // The profile that a number of the pair's stands for. An `if` of three ways, which no method of Option says plainer.
    fn half(&self, profile: u32) -> Option<Half>
        ensures { result ≡ joined (A.Shelf.meaning self.now.first).count (λ own. Some (Half.First own)) (λ own. Some (Half.Second own)) profile }
    {
        let n = self.first.count();
        if profile < n {
            Some(Half::First(profile))
        } else if profile < MOST_PROFILES {
            Some(Half::Second(profile - n))
        } else {
            None
        }
    }
}

impl<A: Shelf, B: Shelf> Shelf for Pair<A, B> {
    ghost meaning = { λ s. pair_meaning (A.Shelf.meaning s.first) (B.Shelf.meaning s.second) };

    ghost lawful = { λ s. pair_lawful (A.Shelf.meaning s.first) (B.Shelf.meaning s.second) (A.Shelf.lawful s.first) (B.Shelf.lawful s.second) };

    fn count(&self) -> u32 {
        (self.first.count() + self.second.count()).min(MOST_PROFILES)
    }

    fn group(&self, profile: u32) -> Option<Group> {
        match self.half(profile)? {
            Half::First(own) => self.first.group(own),
            Half::Second(own) => self.second.group(own),
        }
    }

    fn row(&self, profile: u32, day: u32) -> Option<DayRow> {
        match self.half(profile)? {
            Half::First(own) => self.first.row(own, day),
            Half::Second(own) => self.second.row(own, day),
        }
    }

    fn day_sum(&self, profile: u32, day: u32) -> Option<u32> {
        match self.half(profile)? {
            Half::First(own) => self.first.day_sum(own, day),
            Half::Second(own) => self.second.day_sum(own, day),
        }
    }
}

impl<A: TellShelf, B: TellShelf> TellShelf for Pair<A, B> {
    fn tell(&mut self, tell: Tell) -> Result<(), Refusal> {
        match self.half(tell.profile).ok_or(Refusal::NotFound)? {
            Half::First(profile) => self.first.tell(Tell { profile, ..tell }),
            Half::Second(profile) => self.second.tell(Tell { profile, ..tell }),
        }
    }
}
