// Why a thing that needs memory is not made.
ghost use Rattle.std.specs.Prelude.{◌≡◌, Some};
ghost use Rattle.units.specs.declared.make_error.MakeError.TheVariants.{Refused as refused_with, NoMemory as no_memory};
ghost use Rattle.units.specs.Texts.{make_error_text};

use super::refusal::Refusal;
use std::alloc::{AllocError, AllocFailed};
use std::error::Error;
use std::fmt;

#[derive(Clone, Copy, Debug)]
pub enum MakeError {
    // a rule of its making is broken
    Refused(Refusal),
    NoMemory,
}

impl From<Refusal> for MakeError {
    ghost from_gives = { λ refusal r. r ≡ refused_with refusal };

    fn from(refusal: Refusal) -> MakeError {
        MakeError::Refused(refusal)
    }
}

impl From<AllocError> for MakeError {
    ghost from_gives = { λ _ r. r ≡ no_memory };

    fn from(_error: AllocError) -> MakeError {
        MakeError::NoMemory
    }
}

impl<T: Drop> From<AllocFailed<T>> for MakeError {
    ghost from_gives = { λ _ r. r ≡ no_memory };

    fn from(_error: AllocFailed<T>) -> MakeError {
        MakeError::NoMemory
    }
}

impl fmt::Display for MakeError {
    ghost output = { λ error. Some (make_error_text error) };

    fn fmt<W: fmt::Write>(&self, f: &mut fmt::Formatter<W>) -> fmt::Result {
        match self {
            MakeError::Refused(why) => write!(f, "{why}"),
            MakeError::NoMemory => write!(f, "no memory"),
        }
    }
}

impl Error for MakeError {}
