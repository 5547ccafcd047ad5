// The workspace: where things stand in it, and what signing and checking do with it alike.
// The bound of an index is a clause: a `for` over a range gives it with no proof, and a type would be made and taken apart at each call.
#![tactic(auto)]

ghost use Rattle.std.specs.Prelude.{◌≡◌, [], ◌∷◌, ◌+◌, ◌-◌, ◌*◌, ◌<◌, ◌≤◌};
ghost use Rattle.octets.specs.Lists.{part};
ghost use Rattle.octets.specs.Place.{place};
ghost use Rattle.paper.specs.Symmetric.{hash as hash_of, selector as selector_of, for_alphas, for_commitment};
ghost use Rattle.seeds.specs.Purpose.{place_of};
ghost use Rattle.workspace.specs.Map.{at_vectors, at_tree, at_com1, at_hashes, at_com2, at_alpha0, at_alpha1};

use seeds::Purpose;

pub const VECTORS: usize = 18304;

pub const TREE: usize = 29248;

pub const COM1: usize = 41600;

pub const HASHES: usize = 41601;

pub const SENT: usize = 42145;

pub const COM1_END: usize = 42349;

pub const COM2: usize = 42400;

pub const ALPHA0: usize = 42401;

pub const ALPHA1: usize = 42877;

pub const COM2_END: usize = 43353;

pub const ROOTS: usize = 43360;

// Where the parts start that are lent. A proof knows these places by their contracts alone: of a slice at a numeral the check would count
// the numeral out.
pub fn at_vectors() -> usize
    ensures { result ≡ at_vectors }
{
    VECTORS
}

pub fn at_tree() -> usize
    ensures { result ≡ at_tree }
{
    TREE
}

pub fn at_alpha0() -> usize
    ensures { result ≡ at_alpha0 }
{
    ALPHA0
}

pub fn at_alpha1() -> usize
    ensures { result ≡ at_alpha1 }
{
    ALPHA1
}

// hash_ls_com[e] at its place.
pub fn keep_hash(work: &mut [u8; 65536], e: usize, h: [u8; 32])
    requires { e < 17 }
    ensures { work.new ≡ place (at_hashes + 32 * e) h work.old }
{
    octets::put(&h, work, HASHES + 32 * e);
}

// The purpose's selector is put at `at`, and what stands there up to the end is hashed.
fn commitment(work: &mut [u8; 65536], at: usize, end: usize, purpose: Purpose) -> [u8; 32]
    requires { (at < end) × (end ≤ 65536) }
    ensures hash { result ≡ hash_of (place_of purpose) (part (at + 1) (end - at - 1) work.old) }
    ensures rest { work.new ≡ place at (selector_of (place_of purpose) ∷ []) work.old }
{
    work[at] = purpose.selector();
    shake::hash32(&work[at..end])
}

// com_1: Hash_7 of the hashes and the corrections.
pub fn first_commitment(work: &mut [u8; 65536]) -> [u8; 32]
    ensures hash { result ≡ hash_of for_commitment (part at_hashes 748 work.old) }
    ensures rest { work.new ≡ place at_com1 (selector_of for_commitment ∷ []) work.old }
{
    commitment(work, COM1, COM1_END, Purpose::Commitment)
}

// com_2: Hash_3 of alpha_0 and alpha_1.
pub fn second_commitment(work: &mut [u8; 65536]) -> [u8; 32]
    ensures hash { result ≡ hash_of for_alphas (part at_alpha0 952 work.old) }
    ensures rest { work.new ≡ place at_com2 (selector_of for_alphas ∷ []) work.old }
{
    commitment(work, COM2, COM2_END, Purpose::Alphas)
}
