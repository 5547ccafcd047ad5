// The Fiat-Shamir hash and SampleChallenge of document 001 (algorithm 3, line 9; algorithm 4). Every hash input but the message is a flat
// buffer that starts with its selector.
#![tactic(auto)]

ghost use Rattle.std.specs.Prelude.{◌≡◌, ◌∷◌, ◌++◌, ◌+◌, ◌≤◌, length};
ghost use Rattle.octets.specs.Lists.{part, bytes_of};
ghost use Rattle.octets.specs.Place.{place};
ghost use Rattle.shake.specs.Shake.{shake128};
ghost use Rattle.paper.specs.Symmetric.{selector as selector_of, for_transcript, for_challenge};
ghost use Rattle.paper.specs.Challenge.{challenge, passes as passes_of, first_below};
ghost use Rattle.paper.specs.Scheme.{transcript as transcript_of};
ghost use Rattle.transcript.specs.Search.{search_of};

use seeds::Purpose;

// out holds the nonce afterwards, low byte first.
pub fn put_nonce(nonce: u32, out: &mut [u8])
    requires { length out.old ≡ 4 }
    ensures { out.new ≡ bytes_of 4 nonce }
{
    out.copy_from_slice(&nonce.to_le_bytes());
}

// The input of the Fiat-Shamir hash; m is the message's hash.
fn transcript_input(pk: &[u8; 60], com1: &[u8], com2: &[u8], m: &[u8; 32]) -> [u8; 157]
    requires { (length com1.now ≡ 32) × (length com2.now ≡ 32) }
    ensures { result ≡ selector_of for_transcript ∷ (pk.now ++ com1.now ++ com2.now ++ m.now) }
{
    let mut p = [0; 157];
    p[0] = Purpose::Transcript.selector();
    octets::put(pk, &mut p, 1);
    octets::put(com1, &mut p, 61);
    octets::put(com2, &mut p, 93);
    octets::put(m, &mut p, 125);
    p
}

// Hash_4(pk, com1, com2, Hash_2(msg)) (algorithm 3, line 9; algorithm 5, line 4). The commitments are slices: the checker cuts them out of the
// signature.
pub fn fiat_shamir(pk: &[u8; 60], com1: &[u8], com2: &[u8], msg: &[u8]) -> [u8; 32]
    requires { (length com1.now ≡ 32) × (length com2.now ≡ 32) }
    ensures { result ≡ transcript_of pk.now com1.now com2.now msg.now }
{
    let m = seeds::hash_after(Purpose::Message, msg);
    shake::hash32(&transcript_input(pk, com1, com2, &m))
}

// The input of XOF_5 up to the nonce, for which 4 bytes are left.
fn challenge_input(hash: &[u8; 32]) -> [u8; 37]
    ensures { part 0 33 result ≡ selector_of for_challenge ∷ hash.now }
{
    let mut p = [0; 37];
    p[0] = Purpose::Challenge.selector();
    octets::put(hash, &mut p, 1);
    p
}

// XOF_5(hash, nonce): the challenge of a nonce (algorithm 4, lines 2 and 5).
pub fn sample(hash: &[u8; 32], nonce: &[u8]) -> [u8; 19]
    requires { length nonce.now ≡ 4 }
    ensures { result ≡ challenge hash.now nonce.now }
{
    let mut p = challenge_input(hash);
    octets::put(nonce, &mut p, 33);
    let mut c = [0; 19];
    shake::xof(&p, &mut c);
    c
}

// Whether val, the 9 bits behind the indices, is 0 (algorithm 4, line 3). By a sum, as its definition: of the second byte one bit counts.
pub fn passes(c: &[u8; 19]) -> bool
    ensures { result ≡ passes_of c.now }
{
    c[17] as usize + 256 * (c[18] as usize % 2) == 0
}

// The nonce is written into the input p of XOF_5; whether its challenge passes.
fn test(nonce: u32, p: &mut [u8; 37]) -> bool
    ensures { (p.new ≡ place 33 (bytes_of 4 nonce) p.old) × (result ≡ passes_of (shake128 p.new 19)) }
{
    put_nonce(nonce, &mut p[33..37]);
    let mut c = [0; 19];
    shake::xof(p, &mut c);
    passes(&c)
}

// The first of so many nonces that passes, or none (algorithm 4, lines 1 to 5). It stays a `loop` that ends by `break` with its answer: document
// 01 asks for that form.
pub fn first_nonce(hash: &[u8; 32], tries: u32) -> Option<u32>
    ensures { result ≡ search_of (first_below (λ n. passes_of (challenge hash.now (bytes_of 4 n))) tries) }
{
    let mut p = challenge_input(hash);
    let mut nonce: u32 = 0;
    loop {
        if nonce == tries {
            break None;
        }
        if test(nonce, &mut p) {
            break Some(nonce);
        }
        nonce += 1;
    }
}
