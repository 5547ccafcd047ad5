// The cipher, the hash and the field's two loops over vectors, for a program in C that times them. No call asks anything of its caller: a
// wrong length is answered by a number, since C has no `Result`.
#![tactic(auto)]

ghost use Rattle.std.specs.Prelude.{◌≡◌, ◌%◌, length};
ghost use Rattle.shake.specs.Shake.{shake128};
ghost use Rattle.kernels.specs.Kernels.{each_block, Encrypts, dot_or256, AddsScaled};

use aes::Tables;

// The blocks of buf, each under the expanded key w. By place: of what `chunks_exact_mut` lent, no clause of std says what it holds afterwards.
fn each_block(t: &Tables, w: &[u8; 176], buf: &mut [u8])
    requires { length buf.old % 16 ≡ 0 }
    ensures { buf.new ≡ each_block w.now buf.old }
{
    for i in 0..buf.len() / 16 {
        let x = aes::load(buf, 16 * i);
        let y = t.encrypt(w, x);
        aes::store(buf, 16 * i, y);
    }
}

// Encrypts buf in place, block by block, under a key of 16 bytes: the table and the expanded key are made once. Gives 0, or 1 and leaves
// buf as it is where the key has another length or buf ends within a block.
#[unsafe(no_mangle)]
pub extern "C" fn kernels_encrypt(key: &[u8], buf: &mut [u8]) -> u8
    ensures { Encrypts key.now buf.old result buf.new }
{
    if key.len() != 16 {
        return 1;
    }
    if buf.len() % 16 != 0 {
        return 1;
    }
    let mut words = [0u32; 1024];
    let t = Tables::new(&mut words);
    let w = t.expand(aes::load(key, 0));
    each_block(&t, &w, buf);
    0
}

// out is filled with the first bytes of SHAKE128 of the text: a permutation for each 168 bytes that the padded text has, and for each 168
// bytes of out after the first.
#[unsafe(no_mangle)]
pub extern "C" fn kernels_shake(text: &[u8], out: &mut [u8])
    ensures { out.new ≡ shake128 text.now (length out.old) }
{
    shake::xof(text, out);
}

// The dot product of two vectors, or 256 where their lengths differ.
#[unsafe(no_mangle)]
pub extern "C" fn kernels_dot(a: &[u8], b: &[u8]) -> u32
    ensures { result ≡ dot_or256 a.now b.now }
{
    if a.len() != b.len() {
        return 256;
    }
    field::dot(a, b) as u32
}

// dst becomes dst + w times src. Gives 0, or 1 and leaves dst as it is where their lengths differ.
#[unsafe(no_mangle)]
pub extern "C" fn kernels_add_scaled(dst: &mut [u8], w: u8, src: &[u8]) -> u8
    ensures { AddsScaled dst.old w src.now result dst.new }
{
    if dst.len() != src.len() {
        return 1;
    }
    field::add_scaled(dst, w, src);
    0
}
