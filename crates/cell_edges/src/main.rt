// Both sides of each edge of a key cell. A case that comes out otherwise ends the run, and each is proved to come out as it says;
// the line that is written is their number. The cases name document 01's numbers and not the enum's names, so that the way from one to the
// other is tried as well; each call is proved by computing its own literals, which a loop over a table of cases would not do.
#![tactic(auto)]

ghost use Rattle.std.specs.Prelude.{◌≡◌, ◌<◌};
ghost use Rattle.cell_edges.specs.Edges.{Refused, Read, Unwritten, Written, Same};

use std::io;

// A cell of n characters, all 0 but c at place i, and an output of m bytes: refused with this number, the output untouched.
fn refused(n: usize, i: usize, c: u8, m: usize, number: u8) -> u64
    requires { Refused n i c m number }
    ensures { result ≡ 1 }
{
    let mut cell = [b'0'; 121];
    cell[i] = c;
    let mut out = [0xaau8; 61];
    let before = [0xaau8; 61];
    let r = cells::number(cells::read_cell(&cell[..n], &mut out[..m]));
    check::expect(r == number);
    check::expect(out == before);
    1
}

// A cell of 120 characters, all 0 but c at place i: read, and byte i / 2 is b, the others 0.
fn read(i: usize, c: u8, b: u8) -> u64
    requires { Read i c b }
    ensures { result ≡ 1 }
{
    let mut cell = [b'0'; 120];
    cell[i] = c;
    let mut out = [0xaau8; 60];
    let mut key = [0u8; 60];
    key[i / 2] = b;
    let r = cells::number(cells::read_cell(&cell, &mut out));
    check::expect(r == 0);
    check::expect(out == key);
    1
}

// A key of k bytes and an output of m: number 1, the output untouched.
fn unwritten(k: usize, m: usize) -> u64
    requires { Unwritten k m }
    ensures { result ≡ 1 }
{
    let key = [0u8; 61];
    let mut out = [0xaau8; 121];
    let before = [0xaau8; 121];
    let r = cells::number(cells::write_cell(&key[..k], &mut out[..m]));
    check::expect(r == 1);
    check::expect(out == before);
    1
}

// A key of 60 bytes, all 0 but b at place i: written, and characters 2i and 2i + 1 are h and l, the others 0.
fn written(i: usize, b: u8, h: u8, l: u8) -> u64
    requires { Written i b h l }
    ensures { result ≡ 1 }
{
    let mut key = [0u8; 60];
    key[i] = b;
    let mut out = [0xaau8; 120];
    let mut cell = [b'0'; 120];
    cell[2 * i] = h;
    cell[2 * i + 1] = l;
    let r = cells::number(cells::write_cell(&key, &mut out));
    check::expect(r == 0);
    check::expect(out == cell);
    1
}

// A key of 60 bytes, all a but b at place i: written and read back.
fn back(a: u8, i: usize, b: u8) -> u64
    requires { i < 60 }
    ensures { result ≡ 1 }
{
    let mut key = [a; 60];
    key[i] = b;
    let mut cell = [0u8; 120];
    let mut out = [0u8; 60];
    check::expect(cells::number(cells::write_cell(&key, &mut cell)) == 0);
    check::expect(cells::number(cells::read_cell(&cell, &mut out)) == 0);
    check::expect(out == key);
    1
}

// Texts of n and m characters, all a but c at place i of the second: whether they name the same signer.
fn same(n: usize, m: usize, i: usize, c: u8, answer: bool) -> u64
    requires { Same n m i c answer }
    ensures { result ≡ 1 }
{
    let left = [b'a'; 121];
    let mut right = [b'a'; 121];
    right[i] = c;
    check::expect(cells::same_signer(&left[..n], &right[..m]) == answer);
    1
}

// Lengths of the cell and of the output, and the lowest number where two apply.
#[tactic(auto, unfolding(crate::proofs::Edges::on_literals))]
fn lengths() -> u64
    ensures { result ≡ 9 }
{
    let mut n = 0;
    n += refused(0, 0, b'0', 60, 7);
    n += refused(119, 0, b'0', 60, 7);
    n += refused(121, 0, b'0', 60, 7);
    n += refused(119, 118, b' ', 60, 7);
    n += refused(120, 0, b'0', 59, 1);
    n += refused(120, 0, b'0', 61, 1);
    n += refused(120, 0, b'0', 0, 1);
    n += refused(119, 0, b'0', 59, 1);
    n += refused(120, 0, b' ', 61, 1);
    n
}

// A space at either end, and the characters on the outer side of each class's ends.
#[tactic(auto, unfolding(crate::proofs::Edges::on_literals))]
fn no_digits() -> u64
    ensures { result ≡ 10 }
{
    let mut n = 0;
    n += refused(120, 0, b' ', 60, 8);
    n += refused(120, 119, b' ', 60, 8);
    n += refused(120, 1, b'/', 60, 8);
    n += refused(120, 59, b':', 60, 8);
    n += refused(120, 60, b'@', 60, 8);
    n += refused(120, 61, b'G', 60, 8);
    n += refused(120, 117, b'`', 60, 8);
    n += refused(120, 118, b'g', 60, 8);
    n += refused(120, 119, 0, 60, 8);
    n += refused(120, 0, 255, 60, 8);
    n
}

// All zeros, and the characters at each class's ends, in a high and in a low half.
#[tactic(auto, unfolding(crate::proofs::Edges::on_literals))]
fn digits() -> u64
    ensures { result ≡ 9 }
{
    let mut n = 0;
    n += read(0, b'0', 0);
    n += read(0, b'9', 0x90);
    n += read(119, b'9', 0x09);
    n += read(0, b'a', 0xa0);
    n += read(1, b'a', 0x0a);
    n += read(118, b'f', 0xf0);
    n += read(0, b'A', 0xa0);
    n += read(1, b'A', 0x0a);
    n += read(118, b'F', 0xf0);
    n
}

#[tactic(auto, unfolding(crate::proofs::Edges::on_literals))]
fn writes() -> u64
    ensures { result ≡ 9 }
{
    let mut n = 0;
    n += unwritten(59, 120);
    n += unwritten(61, 120);
    n += unwritten(60, 119);
    n += unwritten(60, 121);
    n += unwritten(0, 0);
    n += written(0, 0, b'0', b'0');
    n += written(0, 0x9a, b'9', b'a');
    n += written(30, 0xaf, b'a', b'f');
    n += written(59, 0xf0, b'f', b'0');
    n
}

fn trips() -> u64
    ensures { result ≡ 4 }
{
    let mut n = 0;
    n += back(0, 0, 0);
    n += back(255, 59, 0);
    n += back(0x5a, 30, 0xa5);
    n += back(0x09, 1, 0xf9);
    n
}

#[tactic(auto, unfolding(crate::proofs::Edges::on_literals))]
fn signers() -> u64
    ensures { result ≡ 8 }
{
    let mut n = 0;
    n += same(120, 120, 0, b'a', true);
    n += same(120, 120, 0, b'A', false);
    n += same(120, 120, 119, b'b', false);
    n += same(119, 120, 0, b'a', false);
    n += same(121, 120, 0, b'a', false);
    n += same(121, 121, 0, b'a', true);
    n += same(0, 0, 0, b'a', true);
    n += same(0, 1, 0, b'a', false);
    n
}

fn main(rt: HostRuntime) -> io::Result<()> {
    let n = lengths() + no_digits() + digits() + writes() + trips() + signers();
    println!(rt; "{n} cases of key cells")
}
