// show_cell PUBLIC: prints the cell of a public key, its 120 characters and no line end, so that what is printed is a file for
// read_cell; where there is none, the number as a line.
#![tactic(auto)]

use cells::Refusal;
use files::Failure;
use std::rt::{Env, Files};

fn run<R: Env + Files + Print>(rt: &R) -> Result<(), Failure<Refusal>> {
    files::expect_words(files::word_count(rt), 1)?;
    let mut pk = [0u8; cells::KEY + 1];
    let pk = files::read(rt, 1, &mut pk)?;
    let mut cell = [0u8; cells::CELL];
    cells::write_cell(pk, &mut cell).map_err(Failure::Refused)?;
    let _ = rt.write_all(&cell);
    Ok(())
}

fn main(rt: HostRuntime) {
    if let Err(failure) = run(&rt) {
        files::print_number(&rt, failure.into());
    }
}
