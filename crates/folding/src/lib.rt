// BLC.ComputeFolding (document 001, 2.5.2, algorithm 13) for 256 leaves, and what algorithms 10 and 12 make of its values. Its variables lie in
// a buffer of nine rows of 56 bytes: acc, then fd_j for each j < 8. In a row 28 bytes belong to x, two elements of F to a byte, and 28 to u.
#![tactic(auto)]

ghost use Rattle.std.specs.Prelude.{◌≡◌, ℕ, ◌^◌, ◌<◌, length};
ghost use Rattle.octets.specs.Lists.{tab};
ghost use Rattle.field.specs.Gf.{◌⊗◌};
ghost use Rattle.field.specs.Vec.{sum};
ghost use Rattle.algebra.specs.Folding.{position as position_of};
ghost use Rattle.folding.specs.Rows.{Added, x_fold, u_fold, u_acc, sent, corrected as corrected_of, x_at, u_at};

use std::array;

// p_i: the only digit in which the points of leaf i and leaf i + 1 differ, the point of leaf 256 being 0. It is i's lowest digit 0.
pub fn position(i: usize) -> usize
    requires { i < 256 }
    ensures { result ≡ position_of 8 i }
{
    i.trailing_ones().min(7) as usize
}

// Lines 4 and 5, with p for p_i: the tape r is added to acc, and acc to fd_p.
pub fn add_tape(f: &mut [u8; 504], r: [u8; 56], p: usize)
    requires { p < 8 }
    ensures { Added f.old r p f.new }
{
    let (acc, fd) = f.split_at_mut(56);
    field::add(acc, &r);
    field::add(&mut fd[56 * p..56 * p + 56], acc);
}

// The sum over j < 8 of ξ^j times row(j), from the highest down.
fn weighted<F: Fn(usize) -> u8>(row: F) -> u8
    requires { (j : ℕ) → j < 8 → F.pre row j }
    ensures { (g : ℕ → ℕ) → ((j x : ℕ) → j < 8 → F.post row j x → x ≡ g j) → result ≡ sum 8 (λ j. (2 ^ j) ⊗ g j) }
{
    let mut r = row(7);
    for j in (0..7).rev() {
        r = field::times_root(r) ^ row(j);
    }
    r
}

// Element k of x_FOLD.
pub fn folded_x(f: &[u8; 504], k: usize) -> u8
    requires { k < 56 }
    ensures { result ≡ x_fold f.now k }
{
    weighted(|j| field::lifted(&f[56 * j + 56..56 * j + 84], k))
}

// Element i of u_FOLD.
pub fn folded_u(f: &[u8; 504], i: usize) -> u8
    requires { i < 28 }
    ensures { result ≡ u_fold f.now i }
{
    weighted(|j| f[56 * j + 84 + i])
}

// x_FOLD: of all shares it is x_0.
pub fn all_x(f: &[u8; 504]) -> [u8; 56]
    ensures { result ≡ tab 56 (x_fold f.now) }
{
    array::from_fn(|k| folded_x(f, k))
}

// u_FOLD: of all shares it is u_0.
pub fn all_u(f: &[u8; 504]) -> [u8; 28]
    ensures { result ≡ tab 28 (u_fold f.now) }
{
    array::from_fn(|i| folded_u(f, i))
}

// u_ACC: of all shares it is u_1. A copy into a new array, here and below: a part of an array is a slice, and would be made an array again.
pub fn sum_u(f: &[u8; 504]) -> [u8; 28]
    ensures { result ≡ u_acc f.now }
{
    let mut r = [0u8; 28];
    r.copy_from_slice(&f[28..56]);
    r
}

// The part of the correction that is sent, for the solution x.
pub fn correction(f: &[u8; 504], x: &[u8; 28]) -> [u8; 12]
    ensures { result ≡ sent f.now x.now }
{
    let mut r = [0u8; 12];
    r.copy_from_slice(&x[16..28]);
    field::add(&mut r, &f[16..28]);
    r
}

// The correction, of which d was sent, plus x_ACC. d is a slice, here and below: the checker lends a part of the signature.
fn corrected(f: &[u8; 504], d: &[u8]) -> [u8; 28]
    requires { length d.now ≡ 12 }
    ensures { result ≡ corrected_of f.now d.now }
{
    let mut c = [0u8; 28];
    c.copy_from_slice(&f[..28]);
    field::add(&mut c[16..], d);
    c
}

// v_x, the value at the point r of the line of x, from the correction of which d was sent.
pub fn x_at(f: &[u8; 504], d: &[u8], r: u8) -> [u8; 56]
    requires { length d.now ≡ 12 }
    ensures { result ≡ tab 56 (x_at f.now d.now r) }
{
    let c = corrected(f, d);
    array::from_fn(|k| field::mul(field::lifted(&c, k), r) ^ folded_x(f, k))
}

// v_u, the value at the point r of the line of u.
pub fn u_at(f: &[u8; 504], r: u8) -> [u8; 28]
    ensures { result ≡ tab 28 (u_at f.now r) }
{
    array::from_fn(|i| field::mul(f[28 + i], r) ^ folded_u(f, i))
}
