// The words that a program is started with.
ghost use Rattle.std.specs.Prelude.{◌≡◌, ◌+◌, eqb, is_ok};

use std::env::FillError;
use std::io::{Error, ErrorKind};
use std::rt::Env;

/// How many words the program was started with, its own name among them.
pub fn word_count<R: Env>(rt: &R) -> usize {
    (0..usize::MAX)
        .find(|&i| matches!(rt.arg(i, &mut []), Err(FillError::NotPresent)))
        .unwrap_or(usize::MAX)
}

/// Whether all words, the program's own name among them, are that name and n more.
pub fn given(all: usize, n: usize) -> bool
    ensures { result ≡ eqb all (n + 1) }
{
    all.checked_sub(1) == Some(n)
}

/// An error where all words, the program's own name among them, are not that name and n more.
pub fn expect_words(all: usize, n: usize) -> Result<(), Error>
    ensures { is_ok result ≡ eqb all (n + 1) }
{
    if !given(all, n) {
        return Err(Error::from(ErrorKind::InvalidInput));
    }
    Ok(())
}
