// What a shelf that knows every day of its profiles answers to a tell.
ghost use Rattle.std.specs.Prelude.{◌≡◌};
ghost use Rattle.shelf.specs.Meaning.{tell_answer, tell_after};
ghost use Rattle.kinds.specs.AllKnown.{AllKnown};

use calendar::LAST_DAY;
use shelf::{Shelf, Tell};
use units::Refusal;

// Each number is refused, so the shelf means the same after it.
pub(crate) fn refuse<S: Shelf>(shelf: &S, tell: Tell) -> Result<(), Refusal>
    requires { AllKnown (S.meaning shelf.now) }
    ensures answer { result ≡ tell_answer (S.meaning shelf.now) tell.profile tell.day tell.number }
    ensures same { S.meaning shelf.now ≡ tell_after (S.meaning shelf.now) tell.profile tell.day tell.number }
{
    if tell.profile >= shelf.count() {
        return Err(Refusal::NotFound);
    }
    if tell.day > LAST_DAY {
        return Err(Refusal::NoSuchDate);
    }
    Err(Refusal::AlreadyKnown)
}
