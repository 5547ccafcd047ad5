// The batch line commitment (document 001, 2.5.2, algorithms 10 to 12) of one repetition: its tree is worked in a room of 12289 bytes that the
// caller lends, of which nothing is said afterwards but its length.
// The bound of an index is a clause: a `for` over a range gives it with no proof, and a type would be made and taken apart at each call.
#![tactic(auto)]

ghost use Rattle.std.specs.Prelude.{◌≡◌, List, ℕ, ◌+◌, ◌*◌, ◌<◌, length, unwrap_or};
ghost use Rattle.octets.specs.Lists.{vec, part};
ghost use Rattle.algebra.specs.Folding.{point as point_of};
ghost use Rattle.aes.specs.Words.{block_of};
ghost use Rattle.paper.specs.Commit.{rseed};
ghost use Rattle.folding.specs.Rows.{Folds};
ghost use Rattle.lines.specs.Standing.{com_by, tape_by, coms_by, hashed_of, raw_by};
ghost use Rattle.lines.specs.Answers.{Committed, Revealed, Evaluated, LinesOf, ValuesOf};

use aes::{Cols, Tables};
use ggm::Tree;
use seeds::Purpose;

// What BLC.Commit makes of a repetition: hash_ls_com, the lines' coefficients, and the part of the correction that is sent.
#[derive(Drop)]
pub struct Lines {
    pub hash: [u8; 32],
    pub x0: [u8; 56],
    pub u0: [u8; 28],
    pub u1: [u8; 28],
    pub correction: [u8; 12],
}

// What BLC.Eval makes of a repetition: hash_ls_com, and the lines' values at the hidden leaf's point.
#[derive(Drop)]
pub struct Values {
    pub hash: [u8; 32],
    pub x: [u8; 56],
    pub u: [u8; 28],
}

// The point of leaf i.
pub fn point(i: u8) -> u8
    ensures { result ≡ point_of i }
{
    i ^ (i / 2)
}

// SeedCommit (19) of a leaf's seed. Here and below a tree's keys go by their place in seeds::TREE_KEYS: derivation runs over them by layer, so a
// name would be turned into the place again. It and the tape are no twins: one has two blocks, the other begins with the seed and ends with half a block.
fn commitment(tree: &Tree, s: Cols) -> [u8; 32]
    ensures { result ≡ com_by tree.now.keys.now (block_of s) }
{
    let a = tree.derive(7, s);
    let b = tree.derive(8, s);
    let mut c = [0u8; 32];
    aes::store(&mut c, 0, a);
    aes::store(&mut c, 16, b);
    c
}

// A leaf's tape: its seed, and 40 bytes of PRG.
fn tape(tree: &Tree, s: Cols) -> [u8; 56]
    ensures { result ≡ tape_by tree.now.keys.now (block_of s) }
{
    let a = tree.derive(9, s);
    let b = tree.derive(10, s);
    let c = tree.derive(11, s);
    let mut r = [0u8; 56];
    aes::store(&mut r, 0, s);
    aes::store(&mut r, 16, a);
    aes::store(&mut r, 32, b);
    aes::store_word(&mut r, 48, c.a);
    aes::store_word(&mut r, 52, c.b);
    r
}

// What Hash_6 is given: its selector, and the commitments of all leaves.
fn commit_leaves(tree: &Tree, leaves: &[u8; 4096], hashed: &mut [u8; 8193])
    ensures { hashed.new ≡ hashed_of (coms_by tree.now.keys.now leaves.now) }
{
    hashed[0] = Purpose::Leaves.selector();
    // By place: std has no law of what chunks zipped with chunks leave in those that are written.
    for i in 0..256 {
        let s = aes::load(leaves, 16 * i);
        let c = commitment(tree, s);
        octets::put(&c, hashed, 1 + 32 * i);
    }
}

// The tape of leaf i, and zeros for the hidden leaf.
fn raw(tree: &Tree, leaves: &[u8; 4096], i: usize, hidden: Option<usize>) -> [u8; 56]
    requires { i < 256 }
    ensures { (b : ℕ) → b < 56 → vec result b ≡ raw_by tree.now.keys.now leaves.now (unwrap_or hidden 256) i b }
{
    if hidden == Some(i) {
        return [0u8; 56];
    }
    let s = aes::load(leaves, 16 * i);
    tape(tree, s)
}

// ComputeFolding (13), lines 1 to 5, of all leaves but the hidden one. Where none is hidden, a clause has 256 for it.
fn fold_leaves(tree: &Tree, leaves: &[u8; 4096], hidden: Option<usize>) -> [u8; 504]
    ensures { Folds result (raw_by tree.now.keys.now leaves.now (unwrap_or hidden 256)) 256 }
{
    let mut f = [0u8; 504];
    for i in 0..256 {
        let r = raw(tree, leaves, i, hidden);
        let p = folding::position(i);
        folding::add_tape(&mut f, r, p);
    }
    f
}

// The lines of the folded tapes.
fn of_folded(hash: [u8; 32], f: &[u8; 504], x: &[u8; 28]) -> Lines
    ensures { LinesOf hash f.now x.now result }
{
    Lines {
        hash,
        x0: folding::all_x(f),
        u0: folding::all_u(f),
        u1: folding::sum_u(f),
        correction: folding::correction(f, x),
    }
}

// BLC.Commit (10), lines 4 to 15, of the repetition e with root seed r and the solution x. Here and in the two below the keys are made first: a
// `Tree` borrows them, so no function can answer it with its keys. Not inlined, so that the keys are on the stack only while they are used.
// Room, path and the other parts are slices: the callers lend parts of the workspace and of the signature. Tables, salt and e make the keys and are
// read no more.
#[inline(never)]
pub fn commit(t: &Tables, salt: Cols, e: usize, r: Cols, x: &[u8; 28], room: &mut [u8]) -> Lines
    requires { (e < 17) × (length room.old ≡ 12289) }
    ensures { (mseed : List ℕ) → block_of r ≡ rseed mseed e → Committed mseed (block_of salt) x.now e result }
{
    let mut keys = [0u8; 2112];
    seeds::write_tree_keys(t, salt, e, &mut keys);
    let tree = Tree {
        tables: *t,
        keys: &keys,
    };
    let (leaves, rest) = room.split_first_chunk_mut::<4096>().unwrap();
    let hashed = rest.as_mut_array::<8193>().unwrap();
    let d = aes::load(x, 0);
    tree.expand_tree(leaves, r, d);
    commit_leaves(&tree, leaves, hashed);
    let h = shake::hash32(hashed);
    let f = fold_leaves(&tree, leaves, None);
    of_folded(h, &f, x)
}

// BLC.Open (11), lines 3 and 4, of the repetition e: the sibling path of the hidden leaf into path. Gives that leaf's commitment.
#[inline(never)]
pub fn reveal(
    t: &Tables,
    salt: Cols,
    e: usize,
    r: Cols,
    x: &[u8; 28],
    hidden: u8,
    path: &mut [u8],
) -> [u8; 32]
    requires { (e < 17) × (length path.old ≡ 128) }
    ensures { (mseed : List ℕ) → block_of r ≡ rseed mseed e → Revealed mseed (block_of salt) x.now e hidden path.new result }
{
    let mut keys = [0u8; 2112];
    seeds::write_tree_keys(t, salt, e, &mut keys);
    let tree = Tree {
        tables: *t,
        keys: &keys,
    };
    let d = aes::load(x, 0);
    let s = tree.open_tree(path, hidden, r, d);
    commitment(&tree, s)
}

// The values of the folded tapes at the point r.
fn at_point(hash: [u8; 32], f: &[u8; 504], d: &[u8], r: u8) -> Values
    requires { length d.now ≡ 12 }
    ensures { ValuesOf hash f.now d.now r result }
{
    Values {
        hash,
        x: folding::x_at(f, d, r),
        u: folding::u_at(f, r),
    }
}

// BLC.Eval (12), lines 3 to 17, of the repetition e, from its parts of an opening: the hidden leaf's sibling path, its commitment, and what was
// sent of the correction.
#[inline(never)]
pub fn eval(
    t: &Tables,
    salt: Cols,
    e: usize,
    hidden: u8,
    path: &[u8],
    out: &[u8],
    sent: &[u8],
    room: &mut [u8],
) -> Values
    requires { (e < 17) × (length path.now ≡ 128) × (length out.now ≡ 32) × (length sent.now ≡ 12) × (length room.old ≡ 12289) }
    ensures { (paths outs sents : List ℕ) → path.now ≡ part (128 * e) 128 paths → out.now ≡ part (32 * e) 32 outs
        → sent.now ≡ part (12 * e) 12 sents → Evaluated (block_of salt) paths outs sents e hidden result }
{
    let mut keys = [0u8; 2112];
    seeds::write_tree_keys(t, salt, e, &mut keys);
    let tree = Tree {
        tables: *t,
        keys: &keys,
    };
    let (leaves, rest) = room.split_first_chunk_mut::<4096>().unwrap();
    let hashed = rest.as_mut_array::<8193>().unwrap();
    tree.rebuild_tree(leaves, hidden, path);
    commit_leaves(&tree, leaves, hashed);
    let i = hidden as usize;
    octets::put(out, hashed, 1 + 32 * i);
    let h = shake::hash32(hashed);
    let f = fold_leaves(&tree, leaves, Some(i));
    at_point(h, &f, sent, point(hidden))
}
