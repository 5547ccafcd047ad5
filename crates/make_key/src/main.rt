// make_key SEED PUBLIC SECRET: makes the key pair of a key seed, and prints the number. A buffer has a byte more than its file may have, so
// that the call sees a file that is too long.
#![tactic(auto)]

use files::Failure;
use mqom::{KEY_SEED, PUBLIC_KEY, Refusal, SECRET_KEY, WORKSPACE};
use std::random::RandomSource;
use std::rt::{Env, Files};

fn run<R: Env + Files + RandomSource + Eprint>(rt: &R) -> Result<(), Failure<Refusal>> {
    files::expect_words(files::word_count(rt), 3)?;
    let mut seed = [0u8; KEY_SEED + 1];
    let seed = files::read(rt, 1, &mut seed)?;
    let mut pk = [0u8; PUBLIC_KEY];
    let mut sk = [0u8; SECRET_KEY];
    let mut work = [0u8; WORKSPACE];
    mqom::make_keys(seed, &mut pk, &mut sk, &mut work).map_err(Failure::Refused)?;
    files::store_keys(rt, 2, &pk, 3, &sk)?;
    Ok(())
}

fn main(rt: HostRuntime) {
    files::print_number(&rt, files::number(run(&rt)));
}
