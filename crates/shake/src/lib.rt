// SHAKE128 of FIPS 202: a sponge that takes a message in parts, and the calls for a whole one.
#![tactic(auto)]

mod keccak;

ghost use Rattle.std.specs.Prelude.{◌≡◌, [], ◌∷◌, ◌*◌, ◌<◌, length};
ghost use Rattle.shake.specs.Shake.{xor_byte, xor_bytes, output, shake128};
ghost use Rattle.shake.specs.Held.{fed, Absorbs, Finishes, PutSome};

use keccak::keccak_f;

// The byte b is added at byte j, by a shift as the definition has it.
fn put(a: &mut [u64; 25], j: usize, b: u8)
    requires { j < 200 }
    ensures { a.new ≡ xor_byte a.old j b }
{
    a[j / 8] ^= (b as u64) << (8 * (j % 8));
}

// The 8 bytes are added to lane k.
fn put8(a: &mut [u64; 25], k: usize, word: &[u8; 8])
    requires { k < 25 }
    ensures { a.new ≡ xor_bytes a.old (8 * k) word.now }
{
    a[k] ^= u64::from_le_bytes(*word);
}

// The block is added.
fn put_block(a: &mut [u64; 25], block: &[u8; 168])
    ensures { a.new ≡ xor_bytes a.old 0 block.now }
{
    let (words, _) = block.as_chunks::<8>();
    for (k, word) in words.iter().enumerate() {
        put8(a, k, word);
    }
}

// The text's first block, or its first 8 bytes where they make a lane, or its first byte, are added at byte j. Gives how many.
fn put_some(a: &mut [u64; 25], j: usize, text: &[u8]) -> usize
    requires { (j < 168) × (0 < length text.now) }
    ensures { PutSome a.old j text.now result a.new }
{
    if j == 0 {
        if let Some(block) = text.first_chunk::<168>() {
            put_block(a, block);
            return 168;
        }
    }
    if j % 8 == 0 {
        if let Some(word) = text.first_chunk::<8>() {
            put8(a, j / 8, word);
            return 8;
        }
    }
    put(a, j, text[0]);
    1
}

// A message's whole blocks are absorbed, and what is left of it is added to the bytes below `at`. Of `at` the rest modulo 168 counts.
#[derive(Drop)]
pub struct Sponge {
    pub lanes: [u64; 25],
    pub at: usize,
}

impl Sponge {
    // A sponge that was fed nothing.
    pub fn new() -> Sponge
        ensures { result ≡ fed [] }
    {
        Sponge {
            lanes: [0; 25],
            at: 0,
        }
    }

    // The sponge with the text after what it was fed.
    pub fn absorb(self, text: &[u8]) -> Sponge
        ensures { Absorbs self text.now result }
    {
        let mut a = self.lanes;
        let mut at = self.at % 168;
        let mut rest = text;
        // A `while`: a turn takes a block, a lane or a byte. A `for` over bytes would take each by itself.
        while !rest.is_empty() {
            let n = put_some(&mut a, at, rest);
            rest = &rest[n..];
            at += n;
            if at == 168 {
                keccak_f(&mut a);
                at = 0;
            }
        }
        Sponge { lanes: a, at }
    }

    // The state after the padding, of which `squeeze` reads the output.
    pub fn finish(self) -> [u64; 25]
        ensures { Finishes self result }
    {
        let mut a = self.lanes;
        put(&mut a, self.at % 168, 0x1f);
        put(&mut a, 167, 0x80);
        keccak_f(&mut a);
        a
    }
}

// out is filled with the first bytes of the output that the state has.
pub fn squeeze(lanes: [u64; 25], out: &mut [u8])
    ensures { out.new ≡ output lanes (length out.old) }
{
    let mut a = lanes;
    // A byte of a lane is a quotient, as the definition has it. `j` counts by hand: to divide each byte's place by 168 takes 1.37 times as long
    // on a long output.
    let mut j = 0;
    for b in out.iter_mut() {
        if j == 168 {
            keccak_f(&mut a);
            j = 0;
        }
        *b = ((a[j / 8] >> (8 * (j % 8))) % 256) as u8;
        j += 1;
    }
}

// out is filled with the first bytes of SHAKE128 of the text.
pub fn xof(text: &[u8], out: &mut [u8])
    ensures { out.new ≡ shake128 text.now (length out.old) }
{
    squeeze(Sponge::new().absorb(text).finish(), out);
}

// The first 32 bytes of SHAKE128 of the text.
pub fn hash32(text: &[u8]) -> [u8; 32]
    ensures { result ≡ shake128 text.now 32 }
{
    let mut h = [0; 32];
    xof(text, &mut h);
    h
}

// out is filled with the first bytes of SHAKE128 of the byte `first` and then the text.
pub fn xof_after(first: u8, text: &[u8], out: &mut [u8])
    ensures { out.new ≡ shake128 (first ∷ text.now) (length out.old) }
{
    squeeze(Sponge::new().absorb(&[first]).absorb(text).finish(), out);
}
