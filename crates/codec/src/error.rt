// Why an input is not answered.
ghost use Rattle.codec.specs.declared.error.InputError.TheVariants.{Input, NoMemory};
ghost use Rattle.std.specs.Prelude.{◌≡◌};

use crate::fault::Fault;
use std::alloc::{AllocError, AllocFailed};

#[derive(Clone, Copy, PartialEq, Eq, Debug)]
pub enum InputError {
    // The first fault of the input.
    Input(Fault),
    NoMemory,
}

impl From<Fault> for InputError {
    ghost from_gives = { λ f r. r ≡ Input f };

    fn from(f: Fault) -> InputError
        ensures { result ≡ InputError.Input f }
    {
        InputError::Input(f)
    }
}

impl From<AllocError> for InputError {
    ghost from_gives = { λ _ r. r ≡ NoMemory };

    fn from(_e: AllocError) -> InputError
        ensures { result ≡ InputError.NoMemory }
    {
        InputError::NoMemory
    }
}

impl<T: Drop> From<AllocFailed<T>> for InputError {
    ghost from_gives = { λ _ r. r ≡ NoMemory };

    fn from(e: AllocFailed<T>) -> InputError
        ensures { result ≡ InputError.NoMemory }
    {
        InputError::from(AllocError::from(e))
    }
}
