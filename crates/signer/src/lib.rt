// The signer's work in the workspace (document 001, algorithm 3): commitments, result lines, the challenge, the openings.
// The bound of an index is a clause: a `for` over a range gives it with no proof, and a type would be made and taken apart at each call.
#![tactic(auto)]

ghost use Rattle.std.specs.Prelude.{◌≡◌, List, ◌++◌, Bool, ℕ, ◌+◌, ◌*◌, ◌<◌, ◌≤◌, length};
ghost use Rattle.octets.specs.Lists.{part, joined, bytes_of};
ghost use Rattle.octets.specs.Place.{place};
ghost use Rattle.aes.specs.Words.{block_of};
ghost use Rattle.paper.specs.Keys.{public_of, solution_of};
ghost use Rattle.paper.specs.Commit.{rseed};
ghost use Rattle.paper.specs.Challenge.{challenge, hidden_in};
ghost use Rattle.seeds.specs.Expanded.{plain_keys};
ghost use Rattle.workspace.specs.Map.{at_hashes, at_sent, at_alpha0, at_alpha1, at_roots};
ghost use Rattle.signer.specs.State.{Within, Committed, Adds, AddsAll, Prepared};
ghost use Rattle.signer.specs.Written.{Openable, opening_at, openings, signature_of, number_of, Answers, Signed};

use aes::{Cols, Tables};
use lines::Lines;
use seeds::PlainKeys;

// Why there is no signature: the solution does not satisfy the equations, or no nonce was found.
#[derive(Clone, Copy, Debug, PartialEq, Eq)]
pub enum Refused {
    Unsatisfied,
    Spent,
}

// What each step of signing reads: the tables of the cipher, the secret key, the salt.
#[derive(Drop)]
struct Signer<'t, 'k> {
    tables: Tables<'t>,
    sk: &'k [u8; 88],
    salt: [u8; 16],
    ghost sk_len: { length sk.now ≡ 88 },
    ghost salt_len: { length salt ≡ 16 },
}

// Both commitments, and the Fiat-Shamir hash of them.
#[derive(Drop)]
struct Challenge {
    com1: [u8; 32],
    com2: [u8; 32],
    hash: [u8; 32],
}

impl Signer<'_, '_> {
    // Both parts of the secret key: the public key, and the solution.
    // The two ends of one key, of two lengths: one function can't answer both types.
    fn public(&self) -> &[u8; 60]
        ensures { result.now ≡ public_of self.now.sk.now }
    {
        let sk = self.sk;
        sk[0..60].as_array().unwrap()
    }

    fn solution(&self) -> &[u8; 28]
        ensures { result.now ≡ solution_of self.now.sk.now }
    {
        let sk = self.sk;
        sk[60..88].as_array().unwrap()
    }

    fn salt_block(&self) -> Cols
        ensures { block_of result ≡ self.now.salt }
    {
        aes::load(&self.salt, 0)
    }
}

// ---- BLC.Commit (algorithm 10)

// rseed[e] at its place. That the keys stand in front is a clause of each function that reads them. A `PlainKeys` would borrow the front for
// the whole call: the workspace would have to be cut in two there, and the commitments take it whole.
fn put_root(t: &Tables, work: &mut [u8; 65536], m: Cols, e: usize)
    requires { (part 0 18304 work.old ≡ plain_keys) × (e < 17) }
    ensures { work.new ≡ place (at_roots + 16 * e) (rseed (block_of m) e) work.old }
{
    let v = workspace::at_vectors();
    let r = PlainKeys::new(t, &work[..v]).block(m, e);
    aes::store(work, workspace::ROOTS + 16 * e, r);
}

fn put_roots(t: &Tables, work: &mut [u8; 65536], m: Cols)
    requires { part 0 18304 work.old ≡ plain_keys }
    ensures { work.new ≡ place at_roots (joined 17 (rseed (block_of m))) work.old }
{
    for e in 0..17 {
        put_root(t, work, m, e);
    }
}

// What is hashed of repetition e at its places: u_0 and u_1 in Hash_3's input, hash_ls_com and the correction in Hash_7's.
fn keep_lines(work: &mut [u8; 65536], e: usize, l: Lines)
    requires { e < 17 }
    ensures sizes { (length l.hash ≡ 32) × (length l.u0 ≡ 28) × (length l.u1 ≡ 28) × (length l.correction ≡ 12) }
    ensures kept { work.new ≡ place (at_sent + 12 * e) l.correction (place (at_alpha1 + 28 * e) l.u1 (place (at_alpha0 + 28 * e) l.u0 (place (at_hashes + 32 * e) l.hash work.old))) }
{
    octets::put(&l.hash, work, workspace::HASHES + 32 * e);
    octets::put(&l.u0, work, workspace::ALPHA0 + 28 * e);
    octets::put(&l.u1, work, workspace::ALPHA1 + 28 * e);
    octets::put(&l.correction, work, workspace::SENT + 12 * e);
}

impl Signer<'_, '_> {
    fn commit_one(&self, work: &mut [u8; 65536], e: usize)
        requires { e < 17 }
        ensures keys { Within 18304 25049 work.old work.new }
        ensures adds { (m : List ℕ) → Committed m self.now.salt (solution_of self.now.sk.now) e work.old
            → Committed m self.now.salt (solution_of self.now.sk.now) (e + 1) work.new }
    {
        let r = aes::load(work, workspace::ROOTS + 16 * e);
        let a = workspace::at_tree();
        let s = self.salt_block();
        let x = self.solution();
        let l = lines::commit(&self.tables, s, e, r, x, &mut work[a..a + 12289]);
        let v = workspace::at_vectors();
        equations::put_lane(&mut work[v..v + 10944], e, l.x0);
        keep_lines(work, e, l);
    }

    fn commit_all(&self, work: &mut [u8; 65536])
        ensures keys { Within 18304 25049 work.old work.new }
        ensures adds { (m : List ℕ) → Committed m self.now.salt (solution_of self.now.sk.now) 0 work.old
            → Committed m self.now.salt (solution_of self.now.sk.now) 17 work.new }
    {
        for e in 0..17 {
            self.commit_one(work, e);
        }
    }

    fn commit(&self, mseed: &[u8; 16], work: &mut [u8; 65536])
        ensures keys { part 0 18304 work.new ≡ plain_keys }
        ensures adds { Committed mseed.now self.now.salt (solution_of self.now.sk.now) 17 work.new }
    {
        let v = workspace::at_vectors();
        seeds::plain_keys(&self.tables, &mut work[..v]);
        put_roots(&self.tables, work, aes::load(mseed, 0));
        self.commit_all(work);
    }
}

// ---- ComputePAlpha (algorithm 6), and whether the solution satisfies the equations

// Packed equation i on all lines: z_0 and z_1 added to u_0 and u_1. Gives 0 where the solution satisfies it.
fn result_one(t: &Tables, pk: &[u8; 60], work: &mut [u8; 65536], i: usize) -> u8
    requires { (part 0 18304 work.old ≡ plain_keys) × (i < 28) }
    ensures rest { Within 42401 952 work.old work.new }
    ensures adds { Adds pk.now i work.old result work.new }
{
    let v = workspace::at_vectors();
    let q = equations::expansion::expand(PlainKeys::new(t, &work[..v]), &pk[0..32], i);
    let z = equations::on_lines(work[v..v + 10944].as_array().unwrap(), &q);
    let a = workspace::at_alpha0();
    equations::add_column(&mut work[a..a + 476], i, z.z0);
    let b = workspace::at_alpha1();
    equations::add_column(&mut work[b..b + 476], i, z.z1);
    z.z0[17] ^ pk[32 + i]
}

// All of them, and whether the solution satisfies each. What they give is gathered with no branch on it, since it is secret.
fn results(t: &Tables, pk: &[u8; 60], work: &mut [u8; 65536]) -> bool
    requires { part 0 18304 work.old ≡ plain_keys }
    ensures rest { Within 42401 952 work.old work.new }
    ensures adds { AddsAll pk.now work.old result work.new }
{
    let mut d: u8 = 0;
    for i in 0..28 {
        d |= result_one(t, pk, work, i);
    }
    d == 0
}

impl Signer<'_, '_> {
    // The lines and the solution as vectors, and their result lines.
    fn alphas(&self, work: &mut [u8; 65536]) -> bool
        requires { part 0 18304 work.old ≡ plain_keys }
        ensures { (m : List ℕ) → Committed m self.now.salt (solution_of self.now.sk.now) 17 work.old
            → Prepared self.now.sk.now self.now.salt m result work.new }
    {
        let v = workspace::at_vectors();
        equations::put_solution(self.solution(), &mut work[v..v + 10944]);
        equations::spread(&mut work[v..v + 10944]);
        results(&self.tables, self.public(), work)
    }

    // Whether the solution satisfies the equations: a bool, since of the refusals only one can come of this.
    fn prepare(&self, mseed: &[u8; 16], work: &mut [u8; 65536]) -> bool
        ensures { Prepared self.now.sk.now self.now.salt mseed.now result work.new }
    {
        self.commit(mseed, work);
        self.alphas(work)
    }
}

// ---- the signature

impl Signer<'_, '_> {
    // The opening of repetition e, field by field, each in the middle of the signature (algorithm 11).
    fn write_opening(&self, hidden: u8, work: &[u8; 65536], sig: &mut [u8; 3484], e: usize)
        requires { e < 17 }
        ensures { (m : List ℕ) → Openable m self.now.salt (solution_of self.now.sk.now) work.now
            → sig.new ≡ opening_at m self.now.salt (solution_of self.now.sk.now) (λ k. hidden) e sig.old }
    {
        let root = aes::load(work, workspace::ROOTS + 16 * e);
        let p = 556 + 128 * e;
        let s = self.salt_block();
        let x = self.solution();
        let c = lines::reveal(&self.tables, s, e, root, x, hidden, &mut sig[p..p + 128]);
        octets::put(&c, sig, 2732 + 32 * e);
        let f = workspace::SENT + 12 * e;
        octets::put(&work[f..f + 12], sig, 3276 + 12 * e);
    }

    fn write_openings(&self, c: &[u8; 19], work: &[u8; 65536], sig: &mut [u8; 3484])
        ensures { (m : List ℕ) → Openable m self.now.salt (solution_of self.now.sk.now) work.now
            → sig.new ≡ openings m self.now.salt (solution_of self.now.sk.now) (hidden_in c.now) 17 sig.old }
    {
        for e in 0..17 {
            self.write_opening(c[e], work, sig, e);
        }
    }

    // Salt, com_1, com_2, alpha_1.
    fn write_head(&self, h: &Challenge, work: &[u8; 65536], sig: &mut [u8; 3484])
        ensures { sig.new ≡ place 0 (self.now.salt ++ (h.now.com1 ++ (h.now.com2 ++ part at_alpha1 476 work.now))) sig.old }
    {
        octets::put(&self.salt, sig, 0);
        octets::put(&h.com1, sig, 16);
        octets::put(&h.com2, sig, 48);
        let a = workspace::at_alpha1();
        octets::put(&work[a..a + 476], sig, 80);
    }

    // The whole signature, with the nonce that was found.
    fn write_signature(&self, h: &Challenge, nonce: u32, work: &[u8; 65536], sig: &mut [u8; 3484])
        ensures { (m : List ℕ) → Openable m self.now.salt (solution_of self.now.sk.now) work.now
            → sig.new ≡ signature_of m self.now.salt (solution_of self.now.sk.now) h.now.com1 h.now.com2 (part at_alpha1 476 work.now) (challenge h.now.hash (bytes_of 4 nonce)) (bytes_of 4 nonce) }
    {
        self.write_head(h, work, sig);
        transcript::put_nonce(nonce, &mut sig[3480..3484]);
        let c = transcript::sample(&h.hash, &sig[3480..3484]);
        self.write_openings(&c, work, sig);
    }

    // The challenge, and the signature where a nonce is found.
    fn answer(
        &self,
        msg: &[u8],
        tries: u32,
        sig: &mut [u8; 3484],
        work: &mut [u8; 65536],
    ) -> Result<(), Refused>
        ensures { (m : List ℕ) (ok : Bool) → length m ≡ 16 → Prepared self.now.sk.now self.now.salt m ok work.old
            → Answers self.now.sk.now msg.now self.now.salt m tries sig.old (number_of result) sig.new }
    {
        let com1 = workspace::first_commitment(work);
        let com2 = workspace::second_commitment(work);
        let hash = transcript::fiat_shamir(self.public(), &com1, &com2, msg);
        match transcript::first_nonce(&hash, tries) {
            Some(nonce) => {
                self.write_signature(&Challenge { com1, com2, hash }, nonce, work, sig);
                Ok(())
            }
            None => Err(Refused::Spent),
        }
    }
}

// Sign (algorithm 3) with so many tries. Nothing is written to the signature where it is refused.
pub fn sign(
    sk: &[u8; 88],
    msg: &[u8],
    salt: &[u8; 16],
    mseed: &[u8; 16],
    tries: u32,
    sig: &mut [u8; 3484],
    work: &mut [u8; 65536],
) -> Result<(), Refused>
    ensures { Signed sk.now msg.now salt.now mseed.now tries sig.old (number_of result) sig.new }
{
    let mut words = [0u32; 1024];
    let tables = Tables::new(&mut words);
    let signer = Signer {
        tables,
        sk,
        salt: *salt,
    };
    if !signer.prepare(mseed, work) {
        return Err(Refused::Unsatisfied);
    }
    signer.answer(msg, tries, sig, work)
}
