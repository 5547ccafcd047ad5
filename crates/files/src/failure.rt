// Why a program's number is not 0.
ghost use Rattle.std.specs.Prelude.{◌≡◌, MatchResult};
ghost use Rattle.files.specs.Failure.{IsNumberOf};
ghost use Rattle.files.specs.declared.failure.Failure.TheVariants.{Input, Unwritten as NotWritten};

use crate::writing::Unwritten;
use std::io::Error;

/// E is what the library's call answers where it refuses.
#[derive(Clone, Copy, Debug, PartialEq, Eq)]
pub enum Failure<E> {
    /// Number 1: the number of words is not right, or a file can't be read.
    Input,
    /// The refusal's own number.
    Refused(E),
    /// Number 9: the call's number is 0, and an output could not be written.
    Unwritten,
}

impl<E> From<Error> for Failure<E> {
    ghost from_gives = { λ _ failure. failure ≡ Input };

    fn from(_: Error) -> Failure<E> {
        Failure::Input
    }
}

impl<E> From<Unwritten> for Failure<E> {
    ghost from_gives = { λ _ failure. failure ≡ NotWritten };

    fn from(_: Unwritten) -> Failure<E> {
        Failure::Unwritten
    }
}

impl<E: Into<u8>> From<Failure<E>> for u8 {
    ghost from_gives = { IsNumberOf E.converts };

    fn from(failure: Failure<E>) -> u8 {
        match failure {
            Failure::Input => 1,
            Failure::Refused(e) => e.into(),
            Failure::Unwritten => u8::from(Unwritten),
        }
    }
}

/// The number of what a program's run came to: 0, or its failure's.
pub fn number<E: Into<u8>>(outcome: Result<(), Failure<E>>) -> u8
    ensures { MatchResult outcome (λ _. result ≡ 0) (λ failure. IsNumberOf E.converts failure result) }
{
    outcome.map_or_else(u8::from, |()| 0)
}
