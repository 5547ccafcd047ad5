// Names of files. std takes a path as text: a name that is not UTF-8 counts as one that can't be read or written.
ghost use Rattle.std.specs.Prelude.{◌≡◌, ◌+◌, ◌≤◌, IfOk};
ghost use Rattle.files.specs.declared.names.TheConstants.{ROOM};

use std::io::{Error, ErrorKind};
use std::random::RandomSource;
use std::rt::Env;
use std::str;

// The longest name that the system takes.
pub(crate) const LONGEST: usize = 4095;

// What stands behind a name in a new file's: a dot and six letters.
const MARK: usize = 7;

const ROOM: usize = LONGEST + MARK;

fn no_name(why: &str) -> Error {
    Error::new(ErrorKind::InvalidFilename, why)
}

// A name with room for what makes it a new file's. A length beside the bytes: std's `arg` fills a buffer that is lent and answers one.
#[derive(Drop)]
pub(crate) struct Name {
    bytes: [u8; ROOM],
    len: usize,
    ghost fits: { len ≤ ROOM },
}

impl Name {
    // The name that argument i is. An error where no file can have it: it is missing, empty or too long.
    pub(crate) fn of_argument<R: Env>(rt: &R, i: usize) -> Result<Name, Error>
        ensures { IfOk result (λ name. name.len ≤ LONGEST) }
    {
        let mut bytes = [0u8; ROOM];
        match rt.arg(i, &mut bytes) {
            Ok(len @ 1..=LONGEST) => Ok(Name { bytes, len }),
            _ => Err(no_name("the name is empty or has more than 4,095 bytes")),
        }
    }

    pub(crate) fn as_text(&self) -> Result<&str, Error> {
        str::from_utf8(&self.bytes[..self.len]).map_err(|_| no_name("the name is not UTF-8"))
    }

    // This name with a dot and six small letters behind it, drawn at random.
    pub(crate) fn drawn<R: RandomSource>(&self, rt: &R) -> Result<Name, Error>
        requires { self.now.len ≤ LONGEST }
        ensures { IfOk result (λ name. name.len ≡ self.now.len + MARK) }
    {
        let mut random = [0u8; 6];
        rt.fill_bytes(&mut random)?;
        let (mut bytes, len) = (self.bytes, self.len + MARK);
        bytes[self.len] = b'.';
        for (letter, byte) in bytes[self.len + 1..len].iter_mut().zip(&random) {
            *letter = b'a' + byte % 26;
        }
        Ok(Name { bytes, len })
    }
}
