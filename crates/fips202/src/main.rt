// SHAKE128 on messages and outputs whose lengths stand around 0 and the rate's multiples, each message absorbed whole and in parts.
// A line for each: the call, the message's length, the length of its parts, the output's length, the output. tests/fips202.py prints
// the same lines with another library.
#![tactic(auto)]

ghost use Rattle.std.specs.Prelude.{◌≡◌, ◌<◌, ◌≤◌, length};
ghost use Rattle.shake.specs.Shake.{shake128};
ghost use Rattle.shake.specs.Held.{fed};

use shake::Sponge;
use std::{array, io};

fn filled() -> [u8; 512] {
    array::from_fn(|i| ((i * 7 + 3) % 256) as u8)
}

// The text, absorbed k bytes at a time. That k is not 0 is a clause here and below: std's `chunks` asks for it.
fn fed_parts(text: &[u8], k: usize) -> Sponge
    requires { 0 < k }
    ensures { result ≡ fed text.now }
{
    let mut s = Sponge::new();
    // `t`, since Rattle wants an array that a call answers in a fresh local.
    for part in text.chunks(k) {
        let t = s.absorb(part);
        s = t;
    }
    s
}

// out is filled with SHAKE128 of the text, absorbed k bytes at a time.
fn in_parts(text: &[u8], k: usize, out: &mut [u8])
    requires { 0 < k }
    ensures { out.new ≡ shake128 text.now (length out.old) }
{
    shake::squeeze(fed_parts(text, k).finish(), out);
}

fn print_head(rt: &impl Print, call: &str, n: usize, k: usize, d: usize) -> io::Result<()> {
    print!(rt; "{call} {n} {k} {d} ")
}

// As fips197 prints a line of bytes: two programs, which share no code but the library's.
fn print_bytes(rt: &impl Print, s: &[u8]) -> io::Result<()> {
    for b in s {
        print!(rt; "{:02x}", *b)?;
    }
    println!(rt)
}

// Each kind of case below is a function of its own: it makes its output by another call, and its head says which.
fn whole_into(rt: &impl Print, text: &[u8], out: &mut [u8]) -> io::Result<()> {
    shake::xof(text, out);
    print_head(rt, "xof", text.len(), text.len(), out.len())?;
    print_bytes(rt, out)
}

fn whole(rt: &impl Print, text: &[u8], d: usize) -> io::Result<()>
    requires { d ≤ 512 }
{
    let mut out = [0u8; 512];
    whole_into(rt, text, &mut out[0..d])
}

fn parts(rt: &impl Print, text: &[u8], k: usize) -> io::Result<()>
    requires { 0 < k }
{
    let mut out = [0u8; 400];
    in_parts(text, k, &mut out);
    print_head(rt, "parts", text.len(), k, 400)?;
    print_bytes(rt, &out)
}

fn short(rt: &impl Print, text: &[u8]) -> io::Result<()> {
    let h = shake::hash32(text);
    print_head(rt, "hash32", text.len(), text.len(), 32)?;
    print_bytes(rt, &h)
}

fn after(rt: &impl Print, text: &[u8]) -> io::Result<()> {
    let mut out = [0u8; 169];
    shake::xof_after(6, text, &mut out);
    print_head(rt, "after", text.len(), text.len(), 169)?;
    print_bytes(rt, &out)
}

fn messages(rt: &impl Print, text: &[u8; 512]) -> io::Result<()> {
    for part in [
        &text[..0],
        &text[..1],
        &text[..167],
        &text[..168],
        &text[..169],
        &text[..336],
        &text[..],
    ] {
        whole(rt, part, 400)?;
    }
    Ok(())
}

fn outputs(rt: &impl Print, text: &[u8; 512]) -> io::Result<()> {
    for d in [0, 1, 167, 168, 169, 336, 337] {
        whole(rt, &text[..32], d)?;
    }
    Ok(())
}

fn some_parts(rt: &impl Print, text: &[u8; 512]) -> io::Result<()> {
    for (part, k) in [
        (&text[..0], 1),
        (&text[..8], 3),
        (&text[..167], 13),
        (&text[..168], 13),
        (&text[..169], 13),
        (&text[..168], 168),
        (&text[..336], 1),
        (&text[..336], 168),
        (&text[..337], 169),
        (&text[..], 17),
    ] {
        parts(rt, part, k)?;
    }
    Ok(())
}

fn others(rt: &impl Print, text: &[u8; 512]) -> io::Result<()> {
    for part in [&text[..0], &text[..168], &text[..]] {
        short(rt, part)?;
    }
    for part in [&text[..0], &text[..167], &text[..168]] {
        after(rt, part)?;
    }
    Ok(())
}

// The example of 1,600 bits that NIST publishes with FIPS 202: 200 bytes a3, and 4,096 bits of output.
fn example(rt: &impl Print) -> io::Result<()> {
    let text = [0xa3u8; 200];
    whole(rt, &text, 512)
}

fn main(rt: HostRuntime) -> io::Result<()> {
    let text = filled();
    messages(&rt, &text)?;
    outputs(&rt, &text)?;
    some_parts(&rt, &text)?;
    others(&rt, &text)?;
    example(&rt)
}
