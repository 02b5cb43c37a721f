// Telling a shelf the days that it does not know by itself.
ghost use Rattle.std.specs.Prelude.{◌≡◌, false, is_ok};
ghost use Rattle.shelf.specs.Meaning.{tell_answer, tell_after};
ghost use Rattle.shelf.specs.Tells.{tells_after, Keeps, KeepsTargets};

use crate::shelves::Shelf;
use units::Refusal;

// A number for a profile's day.
#[derive(Clone, Copy)]
pub struct Tell {
    pub profile: u32,
    pub day: u32,
    pub number: i32,
}

// A shelf that can be told a number for a profile's day, which makes the day known.
pub trait TellShelf: Shelf {
    fn tell(&mut self, tell: Tell) -> Result<(), Refusal>
        ensures answer { result ≡ tell_answer (Self.Shelf.meaning self.old) tell.profile tell.day tell.number }
        ensures after { Self.Shelf.meaning self.new ≡ tell_after (Self.Shelf.meaning self.old) tell.profile tell.day tell.number }
        ensures kept { is_ok result ≡ false → self.new ≡ self.old };
}

// Tells one after the other, past those that are refused.
pub fn tell_all<S: TellShelf>(shelf: &mut S, tells: &[Tell])
    ensures after { S.Shelf.meaning shelf.new ≡ tells_after (S.Shelf.meaning shelf.old) tells.now }
    ensures keeps { Keeps (S.Shelf.meaning shelf.old) (S.Shelf.meaning shelf.new) }
    ensures targets { KeepsTargets (S.Shelf.meaning shelf.old) (S.Shelf.meaning shelf.new) }
{
    for tell in tells {
        let _ = shelf.tell(*tell);
    }
}
