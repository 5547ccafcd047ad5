// check_file PUBLIC MESSAGE SIGNATURE: checks a file's signature, and prints the number. A buffer has a byte more than its file may
// have, so that the call sees a file that is too long.
#![tactic(auto)]

use files::Failure;
use mqom::{MESSAGE, PUBLIC_KEY, Refusal, SIGNATURE, WORKSPACE};
use std::rt::{Env, Files};

fn run<R: Env + Files>(rt: &R) -> Result<(), Failure<Refusal>> {
    files::expect_words(files::word_count(rt), 3)?;
    let mut pk = [0u8; PUBLIC_KEY + 1];
    let pk = files::read(rt, 1, &mut pk);
    let mut msg = [0u8; MESSAGE + 1];
    let msg = files::read(rt, 2, &mut msg);
    let mut sig = [0u8; SIGNATURE + 1];
    let sig = files::read(rt, 3, &mut sig);
    // Each input is read before one is refused: what writes to a pipe that is among them is not left waiting.
    let (pk, msg, sig) = (pk?, msg?, sig?);
    let mut work = [0u8; WORKSPACE];
    mqom::check(pk, msg, sig, &mut work).map_err(Failure::Refused)
}

fn main(rt: HostRuntime) {
    files::print_number(&rt, files::number(run(&rt)));
}
