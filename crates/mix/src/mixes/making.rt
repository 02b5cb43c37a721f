// The making of a mix, which keeps to its rule or is refused.
ghost use Rattle.std.specs.Prelude.{◌≡◌, ◌≤◌, length, Decides};
ghost use Rattle.units.specs.Makings.{Makes};
ghost use Rattle.mix.specs.Shares.{percent_sum};
ghost use Rattle.mix.specs.Mixes.{ShareFits, SharesFit, MixFits, Holds};

use super::{MOST_SHARES, Mix};
use crate::share::Share;
use shelf::{Group, Shelf};
use units::Refusal;

// What stands in a place behind the last share.
const NO_SHARE: Share = Share {
    profile: 0,
    percent: 0,
};

// Shelf and group go together at the making alone, so they are no struct.
fn share_fits<S: Shelf>(shelf: &S, group: Group, share: &Share) -> bool
    ensures { Decides result (ShareFits (S.meaning shelf.now) group share.now) }
{
    share.percent >= 1 && shelf.group(share.profile) == Some(group)
}

fn shares_fit<S: Shelf>(shelf: &S, group: Group, shares: &[Share]) -> bool
    ensures { Decides result (SharesFit (S.meaning shelf.now) group shares.now) }
{
    shares.iter().all(|share| share_fits(shelf, group, share))
}

fn percent_sum(shares: &[Share]) -> u32
    requires { length shares.now ≤ 8 }
    ensures { result ≡ percent_sum shares.now }
{
    shares.iter().map(|share| u32::from(share.percent)).sum()
}

fn mix_fits<S: Shelf>(shelf: &S, group: Group, shares: &[Share]) -> bool
    ensures { Decides result (MixFits (S.meaning shelf.now) group shares.now) }
{
    (1..=MOST_SHARES).contains(&shares.len())
        && shares_fit(shelf, group, shares)
        && percent_sum(shares) == 100
}

fn filled(group: Group, shares: &[Share]) -> Mix
    requires few { length shares.now ≤ 8 }
    requires whole { percent_sum shares.now ≡ 100 }
    ensures { Holds group shares.now result }
{
    let mut places = [NO_SHARE; MOST_SHARES];
    places[..shares.len()].copy_from_slice(shares);
    Mix {
        group,
        count: shares.len() as u8,
        shares: places,
    }
}

impl Mix {
    // A profile may be named twice.
    pub fn new<S: Shelf>(shelf: &S, group: Group, shares: &[Share]) -> Result<Mix, Refusal>
        ensures { Makes (MixFits (S.meaning shelf.now) group shares.now) (λ mix. Holds group shares.now mix) result }
    {
        if !mix_fits(shelf, group, shares) {
            return Err(Refusal::RuleBroken);
        }
        Ok(filled(group, shares))
    }
}
