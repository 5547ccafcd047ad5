// The fields of a signature, in document 001's order. Each is handed out as that part of the caller's bytes, not as a copy; of bytes that
// are not 3484 long the empty part is handed out. These calls give no number, write nothing and are lent no workspace. They judge nothing:
// what they hand out of bytes that no one signed is the part of those bytes. Each field has its own call, as document 01 has them; what
// the calls share are `piece` and `repetition`.
ghost use Rattle.std.specs.Prelude.{◌≡◌, ◌+◌, ◌*◌, ◌≤◌};
ghost use Rattle.octets.specs.Lists.{part};
ghost use Rattle.mqom.specs.Fields.{field_of, salt_in, com1_in, com2_in, lines_in, openings_in, paths_in, hiddens_in, corrections_in, nonce_in, line_in, path_in, hidden_commitment_in, correction_in};

use crate::SIGNATURE;

// The len bytes from at.
#[tactic(auto, unfolding(crate::specs::Fields::field_of, octets::specs::Lists::part))]
fn piece(sig: &[u8], at: usize, len: usize) -> &[u8]
    requires { at + len ≤ 3484 }
    ensures { result.now ≡ field_of (part at len) sig.now }
{
    if sig.len() == SIGNATURE {
        &sig[at..at + len]
    } else {
        &sig[..0]
    }
}

// Of 17 pieces of len bytes, the first at at, that of repetition e.
fn repetition(sig: &[u8], at: usize, len: usize, e: usize) -> &[u8]
    requires { at + 17 * len ≤ 3484 }
    ensures { result.now ≡ part (len * e) len (field_of (part at (17 * len)) sig.now) }
{
    if e < 17 {
        let from = at + e * len;
        piece(sig, from, len)
    } else {
        &sig[..0]
    }
}

// The salt: 16 bytes.
pub fn salt(sig: &[u8]) -> &[u8]
    ensures { result.now ≡ salt_in sig.now }
{
    piece(sig, 0, 16)
}

// The first commitment, com_1: 32 bytes.
pub fn com1(sig: &[u8]) -> &[u8]
    ensures { result.now ≡ com1_in sig.now }
{
    piece(sig, 16, 32)
}

// The second commitment, com_2: 32 bytes.
pub fn com2(sig: &[u8]) -> &[u8]
    ensures { result.now ≡ com2_in sig.now }
{
    piece(sig, 48, 32)
}

// The leading coefficients of the 17 result lines, 28 bytes each.
pub fn result_lines(sig: &[u8]) -> &[u8]
    ensures { result.now ≡ lines_in sig.now }
{
    piece(sig, 80, 476)
}

// The openings: all paths, then all hidden commitments, then all corrections.
pub fn openings(sig: &[u8]) -> &[u8]
    ensures { result.now ≡ openings_in sig.now }
{
    piece(sig, 556, 2924)
}

// The 17 sibling paths, 8 seeds of 16 bytes each.
pub fn paths(sig: &[u8]) -> &[u8]
    ensures { result.now ≡ paths_in sig.now }
{
    piece(sig, 556, 2176)
}

// The commitments of the 17 hidden leaves, 32 bytes each.
pub fn hidden_commitments(sig: &[u8]) -> &[u8]
    ensures { result.now ≡ hiddens_in sig.now }
{
    piece(sig, 2732, 544)
}

// Of the 17 corrections the last 96 bits, 12 bytes each.
pub fn corrections(sig: &[u8]) -> &[u8]
    ensures { result.now ≡ corrections_in sig.now }
{
    piece(sig, 3276, 204)
}

// The nonce: 4 bytes, the low byte first.
pub fn nonce(sig: &[u8]) -> &[u8]
    ensures { result.now ≡ nonce_in sig.now }
{
    piece(sig, 3480, 4)
}

// The leading coefficient of the result line of repetition e: 28 bytes; the empty part where e is 17 or more.
pub fn result_line(sig: &[u8], e: usize) -> &[u8]
    ensures { result.now ≡ line_in e sig.now }
{
    repetition(sig, 80, 28, e)
}

// The sibling path of repetition e: 128 bytes; the empty part where e is 17 or more.
pub fn path(sig: &[u8], e: usize) -> &[u8]
    ensures { result.now ≡ path_in e sig.now }
{
    repetition(sig, 556, 128, e)
}

// The commitment of the hidden leaf of repetition e: 32 bytes; the empty part where e is 17 or more.
pub fn hidden_commitment(sig: &[u8], e: usize) -> &[u8]
    ensures { result.now ≡ hidden_commitment_in e sig.now }
{
    repetition(sig, 2732, 32, e)
}

// Of the correction of repetition e the last 96 bits: 12 bytes; the empty part where e is 17 or more.
pub fn correction(sig: &[u8], e: usize) -> &[u8]
    ensures { result.now ≡ correction_in e sig.now }
{
    repetition(sig, 3276, 12, e)
}
