// The seed routines of document 001 (2.5.4) over aes, and the selectors of its domain separation (2.5.5) as a table indexed by purpose.
// A seed, a salt and a key are four columns (aes::Cols), by value; an expanded key is 176 bytes.
// The bound of an index is a clause: a `for` over a range gives it with no proof, and a type would be made and taken apart at each call.
#![tactic(auto)]

ghost use Rattle.std.specs.Prelude.{◌≡◌, ◌+◌, ◌*◌, ◌<◌, ◌≤◌, length};
ghost use Rattle.octets.specs.Lists.{zero16};
ghost use Rattle.octets.specs.Place.{place};
ghost use Rattle.aes.specs.Cipher.{expand_key};
ghost use Rattle.aes.specs.Words.{block_of};
ghost use Rattle.paper.specs.Symmetric.{selector as selector_of, tweak_salt, psi as psi_of, hash as hash_of, prg_block};
ghost use Rattle.seeds.specs.Purpose.{place_of};
ghost use Rattle.seeds.specs.Expanded.{derive_with, key_at, plain_keys, tree_key, tree_keys};

use aes::{Cols, Tables};

// Nine selectors of XOF and Hash, then four of TweakSalt. A table beside the enum: two purposes have one selector.
const SELECTORS: [u8; 13] = [0, 1, 2, 3, 4, 5, 6, 7, 8, 0, 1, 2, 3];

// What a selector is for, in the order of the table.
#[derive(Clone, Copy)]
pub enum Purpose {
    Key,
    Equations,
    Message,
    Alphas,
    Transcript,
    Challenge,
    Leaves,
    Commitment,
    Gamma,
    CommitFirst,
    CommitSecond,
    Derive,
    Expand,
}

impl Purpose {
    pub fn selector(self) -> u8
        ensures { result ≡ selector_of (place_of self) }
    {
        SELECTORS[self as usize]
    }
}

// What a tree's twelve keys are for, each with its layer: derivation at layers 1 to 7, the two halves of a commitment, three blocks of PRG.
const TREE_KEYS: [(Purpose, usize); 12] = [
    (Purpose::Derive, 1),
    (Purpose::Derive, 2),
    (Purpose::Derive, 3),
    (Purpose::Derive, 4),
    (Purpose::Derive, 5),
    (Purpose::Derive, 6),
    (Purpose::Derive, 7),
    (Purpose::CommitFirst, 0),
    (Purpose::CommitSecond, 0),
    (Purpose::Expand, 0),
    (Purpose::Expand, 1),
    (Purpose::Expand, 2),
];

// The salt of 16 zero bytes.
pub fn zero() -> Cols
    ensures { block_of result ≡ zero16 }
{
    Cols {
        a: 0,
        b: 0,
        c: 0,
        d: 0,
    }
}

// TweakSalt (17), by a sum as its definition has it.
pub fn tweak(salt: Cols, purpose: Purpose, e: usize, j: usize) -> Cols
    requires { (e < 64) × (j < 256) }
    ensures { block_of result ≡ tweak_salt (block_of salt) (place_of purpose) e j }
{
    let sel = purpose.selector() as usize;
    let w = (sel + 4 * e + 256 * j) as u32;
    Cols {
        a: salt.a ^ w,
        b: salt.b,
        c: salt.c,
        d: salt.d,
    }
}

// The expanded key of TweakSalt.
pub fn schedule(t: &Tables, salt: Cols, purpose: Purpose, e: usize, j: usize) -> [u8; 176]
    requires { (e < 64) × (j < 256) }
    ensures { result ≡ expand_key (tweak_salt (block_of salt) (place_of purpose) e j) }
{
    t.expand(tweak(salt, purpose, e, j))
}

// The orthomorphism, equation (13).
fn psi(s: Cols) -> Cols
    ensures { block_of result ≡ psi_of (block_of s) }
{
    Cols {
        a: s.a ^ s.c,
        b: s.b ^ s.d,
        c: s.a,
        d: s.b,
    }
}

// Encryption with feed-forward under the expanded key w: SeedDerive (18), a half of SeedCommit (19), a block of PRG (20).
pub fn derive(t: &Tables, w: &[u8], s: Cols) -> Cols
    requires { length w.now ≡ 176 }
    ensures { block_of result ≡ derive_with w.now (block_of s) }
{
    t.encrypt(w, s) ^ psi(s)
}

// The same under key k of keys that lie end to end.
fn derive_at(t: &Tables, keys: &[u8], k: usize, s: Cols) -> Cols
    requires { 176 * k + 176 ≤ length keys.now }
    ensures { block_of result ≡ derive_with (key_at keys.now k) (block_of s) }
{
    let p = 176 * k;
    derive(t, &keys[p..p + 176], s)
}

// The expanded key of TweakSalt into place k of keys that lie end to end.
fn put_key(t: &Tables, salt: Cols, purpose: Purpose, e: usize, j: usize, k: usize, out: &mut [u8])
    requires purpose_bound { (e < 64) × (j < 256) }
    requires k_in_bounds { 176 * k + 176 ≤ length out.old }
    ensures { out.new ≡ place (176 * k) (expand_key (tweak_salt (block_of salt) (place_of purpose) e j)) out.old }
{
    let w = schedule(t, salt, purpose, e, j);
    let p = 176 * k;
    out[p..p + 176].copy_from_slice(&w);
}

// out becomes the keys of PRG for salt 0 and e 0.
pub fn plain_keys(t: &Tables, out: &mut [u8])
    requires { length out.old ≡ 18304 }
    ensures { out.new ≡ plain_keys }
{
    let salt = zero();
    for i in 0..104usize {
        put_key(t, salt, Purpose::Expand, 0, i, i, out);
    }
}

// The keys of PRG for salt 0 and e 0, where they lie, and the tables.
#[derive(Clone, Copy)]
pub struct PlainKeys<'t, 'k> {
    tables: Tables<'t>,
    keys: &'k [u8],
    ghost plain: { keys.now ≡ plain_keys },
}

impl<'t, 'k> PlainKeys<'t, 'k> {
    // Those that `plain_keys` has left.
    pub fn new(t: &Tables<'t>, keys: &'k [u8]) -> PlainKeys<'t, 'k>
        requires { keys.now ≡ plain_keys }
    {
        PlainKeys { tables: *t, keys }
    }
}

impl PlainKeys<'_, '_> {
    // Block i of PRG for salt 0 and e 0.
    pub fn block(&self, s: Cols, i: usize) -> Cols
        requires { i < 104 }
        ensures { block_of result ≡ prg_block zero16 0 (block_of s) i }
    {
        derive_at(&self.tables, self.keys, i, s)
    }
}

// Key k of tree e into its place.
fn put_tree_key(t: &Tables, salt: Cols, e: usize, k: usize, out: &mut [u8; 2112])
    requires { (e < 17) × (k < 12) }
    ensures { out.new ≡ place (176 * k) (tree_key (block_of salt) e k) out.old }
{
    let (purpose, j) = TREE_KEYS[k];
    put_key(t, salt, purpose, e, j, k, out);
}

// The twelve keys of tree e, written to out: an array by value would be on a caller's stack three times.
pub fn write_tree_keys(t: &Tables, salt: Cols, e: usize, out: &mut [u8; 2112])
    requires { e < 17 }
    ensures { out.new ≡ tree_keys (block_of salt) e }
{
    for k in 0..12usize {
        put_tree_key(t, salt, e, k, out);
    }
}

// The same, by value.
pub fn tree_keys(t: &Tables, salt: Cols, e: usize) -> [u8; 2112]
    requires { e < 17 }
    ensures { result ≡ tree_keys (block_of salt) e }
{
    let mut w = [0u8; 2112];
    write_tree_keys(t, salt, e, &mut w);
    w
}

// SeedDerive, a half of SeedCommit or a block of PRG, under key k of a tree's twelve.
pub fn tree_derive(t: &Tables, keys: &[u8; 2112], k: usize, s: Cols) -> Cols
    requires { k < 12 }
    ensures { block_of result ≡ derive_with (key_at keys.now k) (block_of s) }
{
    derive_at(t, keys, k, s)
}

// Hash of a text, which is not copied behind its selector.
pub fn hash_after(purpose: Purpose, text: &[u8]) -> [u8; 32]
    ensures { result ≡ hash_of (place_of purpose) text.now }
{
    let mut h = [0u8; 32];
    shake::xof_after(purpose.selector(), text, &mut h);
    h
}
