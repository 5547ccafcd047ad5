// The library's calls, for a program in C that times them: each is the call of the same name, with its contract, and gives the number of
// what that call answers: C has no Result.
#![tactic(auto)]

ghost use Rattle.std.specs.Prelude.{◌≡◌};
ghost use Rattle.octets.specs.Lists.{alike};
ghost use Rattle.cells.specs.Cell.{CellRead, CellWritten};
ghost use Rattle.mqom.specs.Calls.{MakesKeys, SignsMessage, ChecksSignature};

#[unsafe(no_mangle)]
pub extern "C" fn timed_make_keys(seed: &[u8], pk: &mut [u8], sk: &mut [u8], work: &mut [u8]) -> u8
    ensures { MakesKeys seed.now pk.old sk.old work.old result pk.new sk.new work.new }
{
    mqom::number(mqom::make_keys(seed, pk, sk, work))
}

#[unsafe(no_mangle)]
pub extern "C" fn timed_sign(
    sk: &[u8],
    msg: &[u8],
    salt: &[u8],
    mseed: &[u8],
    tries: u32,
    sig: &mut [u8],
    work: &mut [u8],
) -> u8
    ensures { SignsMessage sk.now msg.now salt.now mseed.now tries sig.old work.old result sig.new work.new }
{
    mqom::number(mqom::sign(sk, msg, salt, mseed, tries, sig, work))
}

#[unsafe(no_mangle)]
pub extern "C" fn timed_check(pk: &[u8], msg: &[u8], sig: &[u8], work: &mut [u8]) -> u8
    ensures { ChecksSignature pk.now msg.now sig.now work.old result work.new }
{
    mqom::number(mqom::check(pk, msg, sig, work))
}

#[unsafe(no_mangle)]
pub extern "C" fn timed_read_cell(cell: &[u8], out: &mut [u8]) -> u8
    ensures { CellRead cell.now out.old result out.new }
{
    cells::number(cells::read_cell(cell, out))
}

#[unsafe(no_mangle)]
pub extern "C" fn timed_write_cell(key: &[u8], out: &mut [u8]) -> u8
    ensures { CellWritten key.now out.old result out.new }
{
    cells::number(cells::write_cell(key, out))
}

#[unsafe(no_mangle)]
pub extern "C" fn timed_same_signer(a: &[u8], b: &[u8]) -> bool
    ensures { result ≡ alike a.now b.now }
{
    cells::same_signer(a, b)
}
