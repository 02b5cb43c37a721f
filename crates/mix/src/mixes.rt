// A mix of load profiles of one group.
ghost use Rattle.std.specs.Prelude.{◌≡◌, ◌≤◌, length};
ghost use Rattle.mix.specs.Shares.{shares_in, percent_sum};

use crate::share::Share;
use shelf::Group;

mod loads;
mod making;

// How many profiles a mix may have.
const MOST_SHARES: usize = 8;

// One to eight profiles of a group, with percentages that add up to 100. The places are fixed, so that a mix needs no heap, and
// filled from the front; what stands in the others counts for nothing.
#[derive(Clone, Copy)]
pub struct Mix {
    group: Group,
    // a byte, so that a mix stays small
    count: u8,
    shares: [Share; MOST_SHARES],
    ghost places: { length shares ≡ 8 },
    ghost few: { count ≤ 8 },
    ghost whole: { percent_sum (shares_in count shares) ≡ 100 },
}
