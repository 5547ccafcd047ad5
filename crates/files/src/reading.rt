// Files read whole.
ghost use Rattle.std.specs.Prelude.{◌≤◌, ◌<◌, length, is_ok, IfOk};
ghost use Rattle.std.specs.Io.KnownBytes.{IsAtEnd};
ghost use Rattle.io.specs.Counts.{IsPrefixLen};
ghost use Rattle.files.specs.Files.{Loading, count_of};

use crate::names::Name;
use std::fs::File;
use std::io::{Error, Read};
use std::rt::{Env, Files};

// Reads to the end or until the buffer is full, and answers how many bytes that are. A failed read counts nothing.
fn read_all<F: Read>(file: &mut F, buf: &mut [u8]) -> Result<usize, Error>
    ensures loading { Loading (is_ok result) (count_of result) (length buf.new) }
    ensures whole { IfOk result (λ n. n < length buf.new → IsAtEnd (F.remaining file.new)) }
{
    let mut n = 0;
    // no range counts these turns: each read says where the next begins
    while n < buf.len() {
        match file.read(&mut buf[n..])? {
            0 => break,
            k => n += k,
        }
    }
    Ok(n)
}

/// Reads the file that argument i names, to its end or until the buffer is full, and answers how many bytes that are. A buffer one byte
/// longer than what is asked tells a file that is too long.
pub fn load<R: Env + Files>(rt: &R, i: usize, buf: &mut [u8]) -> Result<usize, Error>
    ensures prefix_len { IfOk result (λ n. IsPrefixLen n buf.new) }
    ensures loading { Loading (is_ok result) (count_of result) (length buf.new) }
{
    let name = Name::of_argument(rt, i)?;
    let mut file = File::open(rt, name.as_text()?)?;
    read_all(&mut file, buf)
}

/// What load read: as many bytes of buf, from its start, as load answers. The clause bounds how many: buf goes into the answer, so it has no
/// value after the call that a clause could name, and load's answer has no name outside.
pub fn read<'a, R: Env + Files>(rt: &R, i: usize, buf: &'a mut [u8]) -> Result<&'a [u8], Error>
    ensures { IfOk result (λ part. length part.now ≤ length buf.old) }
{
    let n = load(rt, i, buf)?;
    Ok(&buf[..n])
}
