// ExpandEquations (algorithm 2), one packed equation at a time.
// The bound of an index is a clause: a `for` over a range gives it with no proof, and a type would be made and taken apart at each call.
ghost use Rattle.std.specs.Prelude.{◌≡◌, ◌<◌, length};
ghost use Rattle.aes.specs.Words.{block_of};
ghost use Rattle.paper.specs.Keys.{seed_eq, rows};
ghost use Rattle.paper.specs.Symmetric.{prg};
ghost use Rattle.octets.specs.Lists.{zero16};

use aes::Cols;
use seeds::{PlainKeys, Purpose};

// seed_eq[i] (line 4). mseed is a slice: with an array of 32, `grind` stops at its limit in two callers.
fn seed(mseed: &[u8], i: usize) -> Cols
    requires { (length mseed.now ≡ 32) × (i < 28) }
    ensures { block_of result ≡ seed_eq mseed.now i }
{
    let mut p = [0u8; 35];
    p[0] = Purpose::Equations.selector();
    p[1..33].copy_from_slice(mseed);
    p[33..35].copy_from_slice(&(i as u16).to_le_bytes());
    let mut s = [0u8; 16];
    shake::xof(&p, &mut s);
    aes::load(&s, 0)
}

// PRG (0, 0, s) of 1652 bytes (line 5): 103 whole blocks, and four bytes of the last.
fn fill(keys: PlainKeys, s: Cols) -> [u8; 1652]
    ensures { result ≡ prg zero16 0 (block_of s) 1652 }
{
    let mut q = [0u8; 1652];
    for i in 0..103 {
        let y = keys.block(s, i);
        aes::store(&mut q, 16 * i, y);
    }
    let y = keys.block(s, 103);
    aes::store_word(&mut q, 1648, y.a);
    q
}

// Packed equation i: its rows, and then b.
pub fn expand(keys: PlainKeys, mseed: &[u8], i: usize) -> [u8; 1652]
    requires { (length mseed.now ≡ 32) × (i < 28) }
    ensures { result ≡ rows mseed.now i }
{
    fill(keys, seed(mseed, i))
}
