// sign_file SECRET MESSAGE SALT MASTER TRIES SIGNATURE: signs a file, and prints the number. A buffer has a byte more than its file may
// have, so that the call sees a file that is too long.
#![tactic(auto)]

use files::Failure;
use mqom::{MASTER_SEED, MESSAGE, Refusal, SALT, SECRET_KEY, SIGNATURE, WORKSPACE};
use std::random::RandomSource;
use std::rt::{Env, Files};

fn run<R: Env + Files + RandomSource + Eprint>(rt: &R) -> Result<(), Failure<Refusal>> {
    files::expect_words(files::word_count(rt), 6)?;
    let mut sk = [0u8; SECRET_KEY + 1];
    let sk = files::read(rt, 1, &mut sk);
    let mut msg = [0u8; MESSAGE + 1];
    let msg = files::read(rt, 2, &mut msg);
    let mut salt = [0u8; SALT + 1];
    let salt = files::read(rt, 3, &mut salt);
    let mut mseed = [0u8; MASTER_SEED + 1];
    let mseed = files::read(rt, 4, &mut mseed);
    let mut tries = [0u8; 5];
    let tries = files::read(rt, 5, &mut tries);
    // Each input is read before one is refused: what writes to a pipe that is among them is not left waiting.
    let (sk, msg, salt, mseed, tries) = (sk?, msg?, salt?, mseed?, tries?);
    let tries = files::low_first(tries.as_array().ok_or(Failure::Input)?);
    let mut sig = [0u8; SIGNATURE];
    let mut work = [0u8; WORKSPACE];
    mqom::sign(sk, msg, salt, mseed, tries, &mut sig, &mut work).map_err(Failure::Refused)?;
    files::store(rt, 6, &sig)?;
    Ok(())
}

fn main(rt: HostRuntime) {
    files::print_number(&rt, files::number(run(&rt)));
}
