// The checker's work in the workspace (document 001, algorithm 5): the values at the opened points, the result lines there, both commitments
// compared.
// The bound of an index is a clause: a `for` over a range gives it with no proof, and a type would be made and taken apart at each call.
#![tactic(auto)]

ghost use Rattle.std.specs.Prelude.{◌≡◌, ℕ, ◌+◌, ◌*◌, ◌<◌, length};
ghost use Rattle.octets.specs.Lists.{part, alike};
ghost use Rattle.octets.specs.Place.{place};
ghost use Rattle.seeds.specs.Expanded.{plain_keys};
ghost use Rattle.paper.specs.Alpha.{r3};
ghost use Rattle.paper.specs.Challenge.{hidden_in};
ghost use Rattle.paper.specs.Scheme.{sig_com1, sig_com2, verif_of};
ghost use Rattle.workspace.specs.Map.{at_hashes, at_alpha0};
ghost use Rattle.checker.specs.State.{rest_of, Placed, EvaluatedIn, Vectors, Recomputed, com1_of, com2_of};

use aes::Tables;
use seeds::PlainKeys;

// ---- BLC.Eval (algorithm 12)

// u minus r alpha_1, what v_z is added to for alpha_0 (algorithm 8, lines 11 and 12). alpha_1 is a slice, as it is cut out of the signature.
fn rest_at(u: [u8; 28], alpha1: &[u8], r: u8) -> [u8; 28]
    requires { length alpha1.now ≡ 28 }
    ensures { result ≡ rest_of u alpha1.now r }
{
    let mut v = u;
    field::add_scaled(&mut v, r, alpha1);
    v
}

// The values and the point of repetition e as lane e of the vectors.
fn put_values(vectors: &mut [u8], e: usize, x: [u8; 56], r: u8)
    requires { (length vectors.old ≡ 10944) × (e < 17) }
    ensures { Placed vectors.old e x r vectors.new }
{
    equations::put_lane(vectors, e, x);
    equations::put_point(vectors, e, r);
}

// What is hashed of repetition e at its places.
fn keep_values(work: &mut [u8; 65536], e: usize, h: [u8; 32], u: [u8; 28], alpha1: &[u8], r: u8)
    requires { (e < 17) × (length alpha1.now ≡ 28) }
    ensures { work.new ≡ place (at_alpha0 + 28 * e) (rest_of u alpha1.now r) (place (at_hashes + 32 * e) h work.old) }
{
    workspace::keep_hash(work, e, h);
    let w = rest_at(u, alpha1, r);
    octets::put(&w, work, workspace::ALPHA0 + 28 * e);
}

// Lines 3 to 17 for repetition e. Tables, signature and key are passed one by one: three functions read the signature and three the key,
// so a struct of them would hold what half of its methods do not read.
fn eval_one(t: &Tables, sig: &[u8; 3484], work: &mut [u8; 65536], hidden: u8, e: usize)
    requires { e < 17 }
    ensures { (i : ℕ → ℕ) → i e ≡ hidden → EvaluatedIn sig.now i e work.old → EvaluatedIn sig.now i (e + 1) work.new }
{
    let s = aes::load(sig, 0);
    let p = 556 + 128 * e;
    let h = 2732 + 32 * e;
    let c = 3276 + 12 * e;
    let a = workspace::at_tree();
    let v = lines::eval(
        t,
        s,
        e,
        hidden,
        &sig[p..p + 128],
        &sig[h..h + 32],
        &sig[c..c + 12],
        &mut work[a..a + 12289],
    );
    let r = lines::point(hidden);
    let m = workspace::at_vectors();
    put_values(&mut work[m..m + 10944], e, v.x, r);
    let b = 80 + 28 * e;
    keep_values(work, e, v.hash, v.u, &sig[b..b + 28], r);
}

fn eval_all(t: &Tables, sig: &[u8; 3484], c: &[u8; 19], work: &mut [u8; 65536])
    ensures { EvaluatedIn sig.now (hidden_in c.now) 17 work.new }
{
    for e in 0..17 {
        eval_one(t, sig, work, c[e], e);
    }
}

// All repetitions, and whether the first commitment is the one that the signature carries (algorithm 5, lines 7 and 8).
fn evaluate(t: &Tables, sig: &[u8; 3484], c: &[u8; 19], work: &mut [u8; 65536]) -> bool
    ensures holds { EvaluatedIn sig.now (hidden_in c.now) 17 work.new }
    ensures same { result ≡ alike (com1_of sig.now (hidden_in c.now)) (sig_com1 r3 sig.now) }
{
    eval_all(t, sig, c, work);
    octets::put(&sig[3276..3480], work, workspace::SENT);
    let a = workspace::first_commitment(work);
    octets::same(&a, &sig[16..48])
}

// ---- RecomputePAlpha (algorithm 8)

// Packed equation i at all points: v_z added in column i.
fn recompute_one(t: &Tables, pk: &[u8; 60], work: &mut [u8; 65536], i: usize)
    requires i_bound { i < 28 }
    requires keys { part 0 18304 work.old ≡ plain_keys }
    ensures keys { part 0 18304 work.new ≡ plain_keys }
    ensures adds { (x : ℕ → ℕ → ℕ) (p : ℕ → ℕ) (rest v : ℕ → ℕ → ℕ) → Vectors x p v → Recomputed pk.now x p rest v i work.old → Recomputed pk.now x p rest v (i + 1) work.new }
{
    let v = workspace::at_vectors();
    let q = equations::expansion::expand(PlainKeys::new(t, &work[..v]), &pk[0..32], i);
    let z = equations::at_points(work[v..v + 10944].as_array().unwrap(), &q, pk[32 + i]);
    let a = workspace::at_alpha0();
    equations::add_column(&mut work[a..a + 476], i, z);
}

fn recompute_all(t: &Tables, pk: &[u8; 60], work: &mut [u8; 65536])
    requires { part 0 18304 work.old ≡ plain_keys }
    ensures { (x : ℕ → ℕ → ℕ) (p : ℕ → ℕ) (rest v : ℕ → ℕ → ℕ) → Vectors x p v → Recomputed pk.now x p rest v 0 work.old → Recomputed pk.now x p rest v 28 work.new }
{
    for i in 0..28 {
        recompute_one(t, pk, work, i);
    }
}

// The result lines, and whether the second commitment is the one that the signature carries (algorithm 5, lines 9 to 11).
fn recompute(t: &Tables, pk: &[u8; 60], sig: &[u8; 3484], work: &mut [u8; 65536]) -> bool
    ensures { (i : ℕ → ℕ) → EvaluatedIn sig.now i 17 work.old → result ≡ alike (com2_of pk.now sig.now i) (sig_com2 r3 sig.now) }
{
    let v = workspace::at_vectors();
    seeds::plain_keys(t, &mut work[..v]);
    equations::spread(&mut work[v..v + 10944]);
    recompute_all(t, pk, work);
    octets::put(&sig[80..556], work, workspace::ALPHA1);
    let b = workspace::second_commitment(work);
    octets::same(&b, &sig[48..80])
}

// ---- Verif (algorithm 5)

// Whether sig is a signature of msg under pk. Nothing is promised of what is left in the workspace.
pub fn verify(pk: &[u8; 60], msg: &[u8], sig: &[u8; 3484], work: &mut [u8; 65536]) -> bool
    ensures { result ≡ verif_of r3 pk.now msg.now sig.now }
{
    let hash = transcript::fiat_shamir(pk, &sig[16..48], &sig[48..80], msg);
    let c = transcript::sample(&hash, &sig[3480..3484]);
    if !transcript::passes(&c) {
        return false;
    }
    let mut words = [0u32; 1024];
    let t = Tables::new(&mut words);
    if !evaluate(&t, sig, &c, work) {
        return false;
    }
    recompute(&t, pk, sig, work)
}
