// KeyGen (algorithm 1), in the workspace: its first 18,304 bytes hold the expanded keys of PRG (0, 0, .).
// The bound of an index is a clause: a `for` over a range gives it with no proof, and a type would be made and taken apart at each call.
#![tactic(auto)]

ghost use Rattle.std.specs.Prelude.{◌≡◌, ◌++◌, ℕ, ◌<◌, length};
ghost use Rattle.octets.specs.Lists.{part};
ghost use Rattle.algebra.specs.Line.{form, equation_in};
ghost use Rattle.equations.specs.Put.{Monomials};
ghost use Rattle.paper.specs.Keys.{drawn, rows, values_at, key_gen};

use aes::Tables;
use seeds::{PlainKeys, Purpose};

// x and mseed_eq, laid end to end (line 2).
fn draw(seed: &[u8]) -> [u8; 60]
    ensures { result ≡ drawn seed.now }
{
    let mut r = [0u8; 60];
    shake::xof_after(Purpose::Key.selector(), seed, &mut r);
    r
}

// The value of packed equation i at the solution whose monomials are w (line 5). mseed is a slice: see equations::expansion::seed.
fn value_at(keys: PlainKeys, mseed: &[u8], w: &[u8; 1652], i: usize) -> u8
    requires { (length mseed.now ≡ 32) × (i < 28) }
    ensures { (x : ℕ → ℕ) → Monomials x w.now → result ≡ form 56 (equation_in 56 (rows mseed.now i) 0 0) x }
{
    let q = equations::expansion::expand(keys, mseed, i);
    equations::value(&q, w)
}

// All values, for k that holds x and mseed_eq.
fn put_values(keys: PlainKeys, k: &[u8; 60], y: &mut [u8])
    requires { length y.old ≡ 28 }
    ensures { y.new ≡ values_at (part 28 32 k.now) (part 0 28 k.now) }
{
    let w = equations::monomials(k[0..28].as_array().unwrap());
    for (i, v) in y.iter_mut().enumerate() {
        *v = value_at(keys, &k[28..60], &w, i);
    }
}

// pk: mseed_eq, and the values (line 7).
fn put_public(keys: PlainKeys, k: &[u8; 60], pk: &mut [u8; 60])
    ensures { pk.new ≡ part 28 32 k.now ++ values_at (part 28 32 k.now) (part 0 28 k.now) }
{
    let (m, y) = pk.split_at_mut(32);
    m.copy_from_slice(&k[28..60]);
    put_values(keys, k, y);
}

// sk: pk, and x (line 8).
fn put_secret(pk: &[u8; 60], k: &[u8; 60], sk: &mut [u8; 88])
    ensures { sk.new ≡ pk.now ++ part 0 28 k.now }
{
    let (p, x) = sk.split_at_mut(60);
    p.copy_from_slice(pk);
    x.copy_from_slice(&k[..28]);
}

// pk and sk become those of KeyGen with this key seed. What the workspace holds afterwards is not said.
pub fn make_keys(seed: &[u8; 32], pk: &mut [u8; 60], sk: &mut [u8; 88], work: &mut [u8; 65536])
    ensures public { pk.new ≡ (key_gen seed.now).pk }
    ensures secret { sk.new ≡ (key_gen seed.now).sk }
{
    let mut words = [0u32; 1024];
    let t = Tables::new(&mut words);
    seeds::plain_keys(&t, &mut work[0..18304]);
    let k = draw(seed);
    put_public(PlainKeys::new(&t, &work[0..18304]), &k, pk);
    put_secret(pk, &k, sk);
}
