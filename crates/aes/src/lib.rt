// AES-128 (FIPS 197): key expansion, and encryption of a block under an expanded key. Both are methods of `Tables`, which are made once.
// A key is expanded once, for as many blocks as it encrypts.
#![tactic(auto)]

mod tables;

ghost use Rattle.std.specs.Prelude.{◌≡◌, [], ◌∷◌, ◌+◌, ◌/◌, ◌%◌, ◌<◌, ◌≤◌, length};
ghost use Rattle.octets.specs.Lists.{bytes_of, part};
ghost use Rattle.octets.specs.Xor.{xor_b};
ghost use Rattle.octets.specs.Place.{place};
ghost use Rattle.aes.specs.Sbox.{sbox};
ghost use Rattle.aes.specs.Cipher.{sub_bytes, shift_rows, mix_column, mix_columns, cipher, expand_key};
ghost use Rattle.aes.specs.Words.{block_of, NextKey};

use std::ops::BitXor;
pub use tables::Tables;

// A block as its four columns, each with its first byte lowest.
#[derive(Clone, Copy)]
pub struct Cols {
    pub a: u32,
    pub b: u32,
    pub c: u32,
    pub d: u32,
}

// Four bytes of s from p on, as a column.
fn load_word(s: &[u8], p: usize) -> u32
    requires { p + 4 ≤ length s.now }
    ensures { bytes_of 4 result ≡ part p 4 s.now }
{
    u32::from_le_bytes([s[p], s[p + 1], s[p + 2], s[p + 3]])
}

// Sixteen bytes of s from p on, as a block.
pub fn load(s: &[u8], p: usize) -> Cols
    requires { p + 16 ≤ length s.now }
    ensures { block_of result ≡ part p 16 s.now }
{
    Cols {
        a: load_word(s, p),
        b: load_word(s, p + 4),
        c: load_word(s, p + 8),
        d: load_word(s, p + 12),
    }
}

impl From<[u8; 16]> for Cols {
    ghost from_gives = { λ x k. block_of k ≡ x };

    fn from(x: [u8; 16]) -> Cols {
        load(&x, 0)
    }
}

// The four bytes of x into s, from p on, the lowest first.
pub fn store_word(s: &mut [u8], p: usize, x: u32)
    requires { p + 4 ≤ length s.old }
    ensures { s.new ≡ place p (bytes_of 4 x) s.old }
{
    s[p..p + 4].copy_from_slice(&x.to_le_bytes());
}

// The sixteen bytes of k into s, from p on.
pub fn store(s: &mut [u8], p: usize, k: Cols)
    requires { p + 16 ≤ length s.old }
    ensures { s.new ≡ place p (block_of k) s.old }
{
    store_word(s, p, k.a);
    store_word(s, p + 4, k.b);
    store_word(s, p + 8, k.c);
    store_word(s, p + 12, k.d);
}

impl From<Cols> for [u8; 16] {
    ghost from_gives = { λ k x. x ≡ block_of k };

    fn from(k: Cols) -> [u8; 16] {
        let mut r = [0u8; 16];
        store(&mut r, 0, k);
        r
    }
}

// The sum of two blocks.
impl BitXor for Cols {
    type Output = Cols;

    ghost bitxor_gives = { λ s k r. block_of r ≡ xor_b (block_of s) (block_of k) };

    fn bitxor(self, k: Cols) -> Cols {
        Cols {
            a: self.a ^ k.a,
            b: self.b ^ k.b,
            c: self.c ^ k.c,
            d: self.d ^ k.d,
        }
    }
}

// A column of a full round: a byte of each of four columns, substituted, mixed, and the key's column added. Here and below a byte of a
// column is a quotient and a rest, as in the clauses, so that a proof has nothing to convert.
fn mixed(t: &Tables, a: u32, b: u32, c: u32, d: u32, k: u32) -> u32
    ensures { bytes_of 4 result ≡ xor_b (mix_column (sbox (a % 256)) (sbox (b / 256 % 256)) (sbox (c / 65536 % 256)) (sbox (d / 16777216 % 256))) (bytes_of 4 k) }
{
    let i0 = (a % 256) as usize;
    let i1 = (b / 256 % 256 + 256) as usize;
    let i2 = (c / 65536 % 256 + 512) as usize;
    let i3 = (d / 16777216 % 256 + 768) as usize;
    t.words[i0] ^ t.words[i1] ^ t.words[i2] ^ t.words[i3] ^ k
}

// The byte x substituted.
fn sub_at(t: &Tables, x: u32) -> u8
    requires { x < 256 }
    ensures { result ≡ sbox x }
{
    (t.words[x as usize] / 256 % 256) as u8
}

// A column of the last round, which mixes nothing.
fn shifted(t: &Tables, a: u32, b: u32, c: u32, d: u32, k: u32) -> u32
    ensures { bytes_of 4 result ≡ xor_b (sbox (a % 256) ∷ sbox (b / 256 % 256) ∷ sbox (c / 65536 % 256) ∷ sbox (d / 16777216 % 256) ∷ []) (bytes_of 4 k) }
{
    let x0 = sub_at(t, a % 256);
    let x1 = sub_at(t, b / 256 % 256);
    let x2 = sub_at(t, c / 65536 % 256);
    let x3 = sub_at(t, d / 16777216 % 256);
    u32::from_le_bytes([x0, x1, x2, x3]) ^ k
}

// Beside last_round, which is like it but for what makes a column: a common one would call a closure four times a round.
fn round(t: &Tables, s: Cols, k: Cols) -> Cols
    ensures { block_of result ≡ xor_b (mix_columns (shift_rows (sub_bytes (block_of s)))) (block_of k) }
{
    let a = mixed(t, s.a, s.b, s.c, s.d, k.a);
    let b = mixed(t, s.b, s.c, s.d, s.a, k.b);
    let c = mixed(t, s.c, s.d, s.a, s.b, k.c);
    let d = mixed(t, s.d, s.a, s.b, s.c, k.d);
    Cols { a, b, c, d }
}

fn last_round(t: &Tables, s: Cols, k: Cols) -> Cols
    ensures { block_of result ≡ xor_b (shift_rows (sub_bytes (block_of s))) (block_of k) }
{
    let a = shifted(t, s.a, s.b, s.c, s.d, k.a);
    let b = shifted(t, s.b, s.c, s.d, s.a, k.b);
    let c = shifted(t, s.c, s.d, s.a, s.b, k.c);
    let d = shifted(t, s.d, s.a, s.b, s.c, k.d);
    Cols { a, b, c, d }
}

// The next round key: rc is the first byte of the round constant.
fn next_key(t: &Tables, k: Cols, rc: u8) -> Cols
    ensures { NextKey k rc result }
{
    let x0 = sub_at(t, k.d / 256 % 256) ^ rc;
    let x1 = sub_at(t, k.d / 65536 % 256);
    let x2 = sub_at(t, k.d / 16777216 % 256);
    let x3 = sub_at(t, k.d % 256);
    let a = k.a ^ u32::from_le_bytes([x0, x1, x2, x3]);
    let b = k.b ^ a;
    let c = k.c ^ b;
    let d = k.d ^ c;
    Cols { a, b, c, d }
}

impl Tables<'_> {
    // The expanded key.
    pub fn expand(&self, key: Cols) -> [u8; 176]
        ensures { result ≡ expand_key (block_of key) }
    {
        let mut w = [0u8; 176];
        let mut k = key;
        store(&mut w, 0, k);
        let mut rc: u8 = 1;
        for r in 0..10usize {
            k = next_key(self, k, rc);
            store(&mut w, 16 * r + 16, k);
            rc = field::times_root(rc);
        }
        w
    }

    // The block x under the expanded key w, of 176 bytes: a slice, since keys lie end to end and one is cut out.
    pub fn encrypt(&self, w: &[u8], x: Cols) -> Cols
        requires { length w.now ≡ 176 }
        ensures { block_of result ≡ cipher w.now (block_of x) }
    {
        let s0 = x ^ load(w, 0);
        let s1 = round(self, s0, load(w, 16));
        let s2 = round(self, s1, load(w, 32));
        let s3 = round(self, s2, load(w, 48));
        let s4 = round(self, s3, load(w, 64));
        let s5 = round(self, s4, load(w, 80));
        let s6 = round(self, s5, load(w, 96));
        let s7 = round(self, s6, load(w, 112));
        let s8 = round(self, s7, load(w, 128));
        let s9 = round(self, s8, load(w, 144));
        last_round(self, s9, load(w, 160))
    }
}
