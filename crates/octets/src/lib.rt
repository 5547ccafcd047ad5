// Buffers of bytes: clear, fill, copy, put, compare.
#![tactic(auto)]

ghost use Rattle.std.specs.Prelude.{◌≡◌, ◌+◌, ◌≤◌, length, replicate};
ghost use Rattle.octets.specs.Lists.{alike};
ghost use Rattle.octets.specs.Place.{place};

// Every byte of buf is v afterwards. Beside std's `fill`, which says it of the last element and of clones apart: here it is one fact.
pub fn fill(buf: &mut [u8], v: u8)
    ensures { buf.new ≡ replicate (length buf.old) v }
{
    buf.fill(v);
}

// Every byte of buf is 0 afterwards.
pub fn clear(buf: &mut [u8])
    ensures { buf.new ≡ replicate (length buf.old) 0 }
{
    fill(buf, 0);
}

// dst holds src afterwards. A loop beside std's `copy_from_slice`, which between two parts of what a C caller lent would need memmove from outside.
pub fn copy(src: &[u8], dst: &mut [u8])
    requires { length src.now ≡ length dst.old }
    ensures { dst.new ≡ src.now }
{
    for (i, d) in dst.iter_mut().enumerate() {
        *d = src[i];
    }
}

// text is written into out from place at on.
pub fn put(text: &[u8], out: &mut [u8], at: usize)
    requires { at + length text.now ≤ length out.old }
    ensures { out.new ≡ place at text.now out.old }
{
    copy(text, &mut out[at..at + text.len()]);
}

// Whether a and b hold the same bytes. Of two that are equally long every byte is read, whatever they hold.
pub fn same(a: &[u8], b: &[u8]) -> bool
    ensures { result ≡ alike a.now b.now }
{
    if a.len() != b.len() {
        return false;
    }
    let d = a.iter().zip(b).fold(0, |d, (x, y)| d | (x ^ y));
    d == 0
}
