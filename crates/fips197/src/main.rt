// The vectors of FIPS 197, and blocks of our own, in hexadecimal, sixteen bytes to a line: the expanded key of appendix A.1, the
// ciphertexts of appendix B and of appendix C.1, and for each of 12 keys the last of 20 blocks encrypted in a chain, each added to the
// ciphertext before it.
#![tactic(auto)]

ghost use Rattle.std.specs.Prelude.{◌≡◌, ◌+◌, ◌≤◌, length};

use aes::{Cols, Tables};
use std::{fmt, io};

// Bytes in hexadecimal. fips202 prints its own: two programs, which share no code but the library's.
#[derive(Drop)]
struct Hex<'a>(&'a [u8]);

impl fmt::Display for Hex<'_> {
    fn fmt<W: fmt::Write>(&self, f: &mut fmt::Formatter<W>) -> fmt::Result {
        for b in self.0 {
            write!(f, "{:02x}", *b)?;
        }
        Ok(())
    }
}

// A line of bytes, in one write.
fn show(rt: &impl Print, x: &[u8]) -> io::Result<()> {
    let hex = Hex(x);
    println!(rt; "{hex}")
}

fn show_block(rt: &impl Print, k: Cols) -> io::Result<()> {
    show(rt, &<[u8; 16]>::from(k))
}

fn show_key(rt: &impl Print, w: &[u8; 176]) -> io::Result<()> {
    for round_key in w.chunks_exact(16) {
        show(rt, round_key)?;
    }
    Ok(())
}

// Block n of chain i, from a linear congruence; block 0 is the key.
fn made(i: u32, n: u32) -> Cols {
    let mut x = [0u8; 16];
    let mut v: u32 = i % 256 * 256 + n % 256;
    for byte in x.iter_mut() {
        v = v % 65536 * 25173 + 13849;
        *byte = (v / 256 % 256) as u8;
    }
    Cols::from(x)
}

fn chain(t: &Tables, i: u32) -> Cols {
    let w = t.expand(made(i, 0));
    let mut s = t.encrypt(&w, made(i, 1));
    for n in 2..=20u32 {
        s = t.encrypt(&w, s ^ made(i, n));
    }
    s
}

fn chains(rt: &impl Print, t: &Tables) -> io::Result<()> {
    for i in 0..12u32 {
        show_block(rt, chain(t, i))?;
    }
    Ok(())
}

// Appendix A.1, and appendix B, which has the same key.
fn appendix_a_b(rt: &impl Print, t: &Tables) -> io::Result<()> {
    let w = t.expand(Cols::from([
        0x2b, 0x7e, 0x15, 0x16, 0x28, 0xae, 0xd2, 0xa6, 0xab, 0xf7, 0x15, 0x88, 0x09, 0xcf, 0x4f,
        0x3c,
    ]));
    show_key(rt, &w)?;
    let x = Cols::from([
        0x32, 0x43, 0xf6, 0xa8, 0x88, 0x5a, 0x30, 0x8d, 0x31, 0x31, 0x98, 0xa2, 0xe0, 0x37, 0x07,
        0x34,
    ]);
    show_block(rt, t.encrypt(&w, x))
}

// Appendix C.1.
fn appendix_c(rt: &impl Print, t: &Tables) -> io::Result<()> {
    let w = t.expand(Cols::from([
        0x00, 0x01, 0x02, 0x03, 0x04, 0x05, 0x06, 0x07, 0x08, 0x09, 0x0a, 0x0b, 0x0c, 0x0d, 0x0e,
        0x0f,
    ]));
    let x = Cols::from([
        0x00, 0x11, 0x22, 0x33, 0x44, 0x55, 0x66, 0x77, 0x88, 0x99, 0xaa, 0xbb, 0xcc, 0xdd, 0xee,
        0xff,
    ]);
    show_block(rt, t.encrypt(&w, x))
}

fn main(rt: HostRuntime) -> io::Result<()> {
    let mut words = [0u32; 1024];
    let t = Tables::new(&mut words);
    appendix_a_b(&rt, &t)?;
    appendix_c(&rt, &t)?;
    chains(&rt, &t)
}
