// Files written whole or not at all: made beside the name that they get, and renamed.
ghost use Rattle.std.specs.Prelude.{◌≡◌, ◌≤◌};
ghost use Rattle.files.specs.Files.{Storing, number_of_storing};

use crate::names::{LONGEST, Name};
use std::fs::{OpenFile, OpenOptions, Permissions};
use std::io::{Error, ErrorKind, Write};
use std::os::unix::fs::{OpenOptionsExt, PermissionsExt};
use std::random::RandomSource;
use std::rt::{Env, Files};
use std::{fmt, fs};

const FOR_ALL: u32 = 0o644;

const FOR_THE_OWNER: u32 = 0o600;

// How many names a new file may find taken.
const TRIES: usize = 256;

/// The call's number is 0, and an output could not be written. Standard error has the reason.
#[derive(Clone, Copy, Debug, PartialEq, Eq)]
pub struct Unwritten;

// 9 stands in no table of the library.
impl From<Unwritten> for u8 {
    ghost from_gives = { λ _ number. number ≡ 9 };

    fn from(_: Unwritten) -> u8 {
        9
    }
}

// A word as text for the reader of an error, with a sign in place of what is not UTF-8: std's own lossy text takes memory from a heap.
#[derive(Drop)]
struct Shown<'a>(&'a [u8]);

impl fmt::Display for Shown<'_> {
    fn fmt<W: fmt::Write>(&self, f: &mut fmt::Formatter<W>) -> fmt::Result {
        for chunk in self.0.utf8_chunks() {
            f.write_str(chunk.valid())?;
            if !chunk.invalid().is_empty() {
                f.write_str("\u{fffd}")?;
            }
        }
        Ok(())
    }
}

// Writes a line to standard error: argument i, a colon and the reason. Of an argument above 4,103 bytes nothing is shown. std's `arg` fills a
// buffer that is lent and answers a length, here and in `same_name`: no heap is used.
fn tell<R: Env + Eprint>(rt: &R, i: usize, reason: Error) -> Unwritten {
    let mut word = [0u8; 4103];
    let n = rt.arg(i, &mut word).unwrap_or(0);
    let shown = Shown(&word[..n]);
    let _ = eprintln!(rt; "{shown}: {reason}");
    Unwritten
}

// An error where no file can have this name: it is not text, or a directory has it.
fn check_free<R: Files>(rt: &R, name: &Name) -> Result<(), Error> {
    let text = name.as_text()?;
    match OpenOptions::new().read(true).write(true).open(rt, text) {
        Err(e) if e.kind() == ErrorKind::IsADirectory => Err(e),
        _ => Ok(()),
    }
}

// Opens a new file for writing, for its owner alone. An error where the name is taken.
fn create<R: Files>(rt: &R, name: &Name) -> Result<R::File, Error> {
    let text = name.as_text()?;
    OpenOptions::new()
        .write(true)
        .create_new(true)
        .mode(FOR_THE_OWNER)
        .open(rt, text)
}

// Opens a new file beside the named one, and answers its name too.
fn create_beside<R: Files + RandomSource>(rt: &R, name: &Name) -> Result<(R::File, Name), Error>
    requires { name.now.len ≤ LONGEST }
{
    for _ in 0..TRIES {
        let drawn = name.drawn(rt)?;
        match create(rt, &drawn) {
            Err(e) if e.kind() == ErrorKind::AlreadyExists => {}
            created => return Ok((created?, drawn)),
        }
    }
    Err(Error::from(ErrorKind::AlreadyExists))
}

fn put<F: Write + OpenFile>(file: &mut F, bytes: &[u8], mode: u32) -> Result<(), Error> {
    file.write_all(bytes)?;
    file.set_permissions(Permissions::from_mode(mode))?;
    file.sync_all()
}

fn remove<R: Files>(rt: &R, name: &Name) {
    if let Ok(text) = name.as_text() {
        let _ = fs::remove_file(rt, text);
    }
}

// Opens a new file beside the one that argument i names, and answers its name too.
fn open_beside<R: Env + Files + RandomSource>(rt: &R, i: usize) -> Result<(R::File, Name), Error> {
    let name = Name::of_argument(rt, i)?;
    check_free(rt, &name)?;
    create_beside(rt, &name)
}

// Says why the file that argument i names was not made, and then removes the new one.
fn give_up<R: Env + Files + Eprint>(rt: &R, i: usize, made: &Name, reason: Error) -> Unwritten {
    let unwritten = tell(rt, i, reason);
    remove(rt, made);
    unwritten
}

// Makes a new file of these bytes beside the one that argument i names, and answers its name. Where it could not be made whole no file
// is left.
fn beside<R: Env + Files + RandomSource + Eprint>(
    rt: &R,
    i: usize,
    bytes: &[u8],
    mode: u32,
) -> Result<Name, Unwritten> {
    let (mut file, made) = open_beside(rt, i).map_err(|e| tell(rt, i, e))?;
    put(&mut file, bytes, mode).map_err(|e| give_up(rt, i, &made, e))?;
    Ok(made)
}

fn rename<R: Env + Files>(rt: &R, made: &Name, i: usize) -> Result<(), Error> {
    let name = Name::of_argument(rt, i)?;
    fs::rename(rt, made.as_text()?, name.as_text()?)
}

// Gives the file the name that argument i is, in one step, and removes it where that can't be.
fn settle<R: Env + Files + Eprint>(rt: &R, i: usize, made: &Name) -> Result<(), Unwritten>
    ensures { Storing (number_of_storing result) }
{
    rename(rt, made, i).map_err(|e| give_up(rt, i, made, e))
}

/// Makes the file that argument i names hold these bytes, and be readable by all.
pub fn store<R: Env + Files + RandomSource + Eprint>(
    rt: &R,
    i: usize,
    bytes: &[u8],
) -> Result<(), Unwritten>
    ensures { Storing (number_of_storing result) }
{
    let made = beside(rt, i, bytes, FOR_ALL)?;
    settle(rt, i, &made)
}

// Whether two arguments are one name. One of more than 4,096 bytes counts as empty: neither is a name.
fn same_name<R: Env>(rt: &R, i: usize, j: usize) -> bool {
    let (mut a, mut b) = ([0u8; 4096], [0u8; 4096]);
    let n = rt.arg(i, &mut a).unwrap_or(0);
    let m = rt.arg(j, &mut b).unwrap_or(0);
    a[..n] == b[..m]
}

/// Stores a public key, readable by all, and its secret key, readable by its owner alone. Both are whole before either takes its name.
/// The secret key comes first: it carries the public one, so a stop between the two loses nothing.
pub fn store_keys<R: Env + Files + RandomSource + Eprint>(
    rt: &R,
    public: usize,
    pk: &[u8],
    secret: usize,
    sk: &[u8],
) -> Result<(), Unwritten>
    ensures { Storing (number_of_storing result) }
{
    if same_name(rt, public, secret) {
        let _ = rt.eprintln("the two keys need two names");
        return Err(Unwritten);
    }
    let p = beside(rt, public, pk, FOR_ALL)?;
    let stored = beside(rt, secret, sk, FOR_THE_OWNER).and_then(|s| settle(rt, secret, &s));
    if stored.is_err() {
        remove(rt, &p);
    }
    stored?;
    settle(rt, public, &p)
}
