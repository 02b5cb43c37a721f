// What a mix loads, by the shelf that has its profiles.
ghost use Rattle.std.specs.Prelude.{◌≡◌, ◌≤◌};
ghost use Rattle.mix.specs.Loads.{known_on, load};
ghost use Rattle.mix.specs.Mixes.{shares_of};

use super::Mix;
use crate::share::Share;
use shelf::{Group, Shelf};

impl Mix {
    pub fn group(&self) -> Group
        ensures { result ≡ self.now.group }
    {
        self.group
    }

    // In their order.
    fn shares(&self) -> &[Share]
        ensures { result.now ≡ shares_of self.now }
    {
        &self.shares[..usize::from(self.count)]
    }

    // Whether each of its profiles is known on a day.
    pub fn known_on<S: Shelf>(&self, shelf: &S, day: u32) -> bool
        ensures { result ≡ known_on (S.meaning shelf.now) self.now day }
    {
        self.shares()
            .iter()
            .all(|share| shelf.value(share.profile, day, 0).is_some())
    }

    // Percentage times value in a quarter hour, added over its profiles; what is unknown counts 0.
    pub fn load<S: Shelf>(&self, shelf: &S, day: u32, quarter: u32) -> u32
        ensures value { result ≡ load (S.meaning shelf.now) self.now day quarter }
        ensures bound { result ≤ 999900 }
    {
        let load = |share: &Share| {
            let value = shelf.value(share.profile, day, quarter).unwrap_or(0);
            u32::from(share.percent) * u32::from(value)
        };
        self.shares().iter().map(load).sum()
    }
}
