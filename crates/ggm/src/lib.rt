// The GGM tree routines of document 001 (2.5.3, algorithms 14 to 16) over SeedDerive, by halves: a tree is expanded from its root,
// opened at a leaf, and rebuilt from a sibling path.
// Depth and layer are bounded by clauses: j + d <= 8 ties two parameters, which a type of one can't.
#![tactic(auto)]

ghost use Rattle.std.specs.Prelude.{◌≡◌, [], ◌+◌, ◌-◌, ◌*◌, ◌^◌, ◌<◌, ◌≤◌, length, get_or};
ghost use Rattle.octets.specs.Lists.{flat};
ghost use Rattle.aes.specs.Words.{block_of};
ghost use Rattle.tree.specs.Tree.{leaves_of, path_of, rebuild_of, tree_of, tree_path_of};
ghost use Rattle.seeds.specs.Expanded.{derive_with, key_at};
ghost use Rattle.ggm.specs.Ggm.{derive_by};

use aes::{Cols, Tables};

// What a tree is derived with: the tables of the cipher, and the tree's twelve keys (seeds::tree_keys). Its methods are lent both, so that a
// call's stack has the keys once.
#[derive(Clone, Copy)]
pub struct Tree<'a> {
    pub tables: Tables<'a>,
    pub keys: &'a [u8; 2112],
    // the array's length, as a fact that other crates read
    ghost keys_len: { length keys.now ≡ 2112 },
}

// How many leaves half a tree of depth d has.
fn half(d: usize) -> usize
    requires { (1 ≤ d) × (d ≤ 8) }
    ensures { result ≡ 2 ^ (d - 1) }
{
    1usize << (d - 1)
}

impl Tree<'_> {
    // SeedDerive, a half of SeedCommit or a block of PRG, under key k.
    pub fn derive(&self, k: usize, s: Cols) -> Cols
        requires { k < 12 }
        ensures { block_of result ≡ derive_with (key_at self.now.keys.now k) (block_of s) }
    {
        seeds::tree_derive(&self.tables, self.keys, k, s)
    }

    // The left child of a node of layer j. Of the layers' keys those of layers 1 to 7 are read.
    #[tactic(auto, unfolding(crate::specs::Ggm::derive_by))]
    fn child(&self, j: usize, s: Cols) -> Cols
        requires { (1 ≤ j) × (j ≤ 8) }
        ensures { block_of result ≡ derive_by self.now.keys.now j (block_of s) }
    {
        self.derive(j - 1, s)
    }

    // Expand, below the node of layer j with seed s: its 2 ^ d leaf seeds. A tree may be shallower than j allows, so d is not 8 - j.
    #[tactic(auto, using(crate::proofs::Depths::depths))]
    pub fn expand(&self, buf: &mut [u8], s: Cols, d: usize, j: usize)
        requires { (length buf.old ≡ 16 * 2 ^ d) × (1 ≤ j) × (j + d ≤ 8) }
        ensures { buf.new ≡ flat (leaves_of (derive_by self.now.keys.now) d j (block_of s)) }
    {
        if d == 0 {
            aes::store(buf, 0, s);
        } else {
            let h = buf.len() / 2;
            let (left, right) = buf.split_at_mut(h);
            let l = self.child(j, s);
            let r = l ^ s;
            self.expand(left, l, d - 1, j + 1);
            self.expand(right, r, d - 1, j + 1);
        }
    }

    // Open, below the node of layer j with seed s: the d siblings on the way to the hidden leaf, from the leaf up. Gives that leaf's seed.
    #[tactic(auto, using(crate::proofs::Depths::depths))]
    pub fn open_path(&self, path: &mut [u8], hidden: usize, s: Cols, d: usize, j: usize) -> Cols
        requires { (length path.old ≡ 16 * d) × (hidden < 2 ^ d) × (1 ≤ j) × (j + d ≤ 8) }
        ensures siblings { path.new ≡ flat (path_of (derive_by self.now.keys.now) d j hidden (block_of s)) }
        ensures leaf { block_of result ≡ get_or (leaves_of (derive_by self.now.keys.now) d j (block_of s)) hidden [] }
    {
        if d == 0 {
            return s;
        }
        let h = half(d);
        let l = self.child(j, s);
        let r = l ^ s;
        let (below, sibling) = path.split_at_mut(16 * (d - 1));
        if hidden < h {
            aes::store(sibling, 0, r);
            self.open_path(below, hidden, l, d - 1, j + 1)
        } else {
            aes::store(sibling, 0, l);
            self.open_path(below, hidden - h, r, d - 1, j + 1)
        }
    }

    // PartiallyExpand, below a node of layer j: the leaf seeds that the sibling path gives, zeros in the place of the hidden leaf.
    #[tactic(auto, using(crate::proofs::Depths::depths))]
    pub fn rebuild(&self, buf: &mut [u8], hidden: usize, path: &[u8], d: usize, j: usize)
        requires { (length buf.old ≡ 16 * 2 ^ d) × (16 * d ≤ length path.now) × (hidden < 2 ^ d) × (j + d ≤ 8) }
        ensures { buf.new ≡ flat (rebuild_of (derive_by self.now.keys.now) d j hidden path.now) }
    {
        if d == 0 {
            buf.fill(0);
        } else {
            let h = half(d);
            let m = buf.len() / 2;
            let (left, right) = buf.split_at_mut(m);
            let s = aes::load(path, 16 * (d - 1));
            if hidden < h {
                self.rebuild(left, hidden, path, d - 1, j + 1);
                self.expand(right, s, d - 1, j + 1);
            } else {
                self.expand(left, s, d - 1, j + 1);
                self.rebuild(right, hidden - h, path, d - 1, j + 1);
            }
        }
    }

    // GGMTree.Expand: the 256 leaf seeds of the tree with root seed r and offset delta.
    pub fn expand_tree(&self, buf: &mut [u8; 4096], r: Cols, delta: Cols)
        ensures { buf.new ≡ flat (tree_of (derive_by self.now.keys.now) 7 (block_of r) (block_of delta)) }
    {
        let o = r ^ delta;
        let (left, right) = buf.split_at_mut(2048);
        self.expand(left, r, 7, 1);
        self.expand(right, o, 7, 1);
    }

    // GGMTree.Open: the sibling path of the hidden leaf. Gives that leaf's seed. The path is a slice, here and below: the signer and the checker
    // lend a part of the signature.
    pub fn open_tree(&self, path: &mut [u8], hidden: u8, r: Cols, delta: Cols) -> Cols
        requires { length path.old ≡ 128 }
        ensures siblings { path.new ≡ flat (tree_path_of (derive_by self.now.keys.now) 7 hidden (block_of r) (block_of delta)) }
        ensures leaf { block_of result ≡ get_or (tree_of (derive_by self.now.keys.now) 7 (block_of r) (block_of delta)) hidden [] }
    {
        let o = r ^ delta;
        let (below, last) = path.split_at_mut(112);
        if hidden < 128 {
            aes::store(last, 0, o);
            self.open_path(below, hidden as usize, r, 7, 1)
        } else {
            aes::store(last, 0, r);
            self.open_path(below, (hidden - 128) as usize, o, 7, 1)
        }
    }

    // GGMTree.PartiallyExpand: the 256 leaf seeds that the sibling path gives, zeros in the place of the hidden leaf.
    pub fn rebuild_tree(&self, buf: &mut [u8; 4096], hidden: u8, path: &[u8])
        requires { length path.now ≡ 128 }
        ensures { buf.new ≡ flat (rebuild_of (derive_by self.now.keys.now) 8 0 hidden path.now) }
    {
        self.rebuild(buf, hidden as usize, path, 8, 0);
    }
}
