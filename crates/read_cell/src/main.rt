// read_cell CELL PUBLIC: makes the public key that a cell names, and prints the number. The file holds the cell's characters and
// nothing else: no line end is cut off.
#![tactic(auto)]

use cells::Refusal;
use files::Failure;
use std::random::RandomSource;
use std::rt::{Env, Files};

fn run<R: Env + Files + RandomSource + Eprint>(rt: &R) -> Result<(), Failure<Refusal>> {
    files::expect_words(files::word_count(rt), 2)?;
    let mut cell = [0u8; cells::CELL + 1];
    let cell = files::read(rt, 1, &mut cell)?;
    let mut pk = [0u8; cells::KEY];
    cells::read_cell(cell, &mut pk).map_err(Failure::Refused)?;
    files::store(rt, 2, &pk)?;
    Ok(())
}

fn main(rt: HostRuntime) {
    files::print_number(&rt, files::number(run(&rt)));
}
