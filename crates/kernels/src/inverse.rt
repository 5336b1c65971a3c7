// Gauss-Jordan on [H | I]. Row i is slot 4 + i of width 2·n of the scratch w, so that its slots 0 to 7 of
// width n are free.
ghost use Rattle.std.specs.Prelude.{◌≡◌, [], ◌∷◌, ◌+◌, ◌*◌, ◌<◌, eqb, length};
ghost use Rattle.vectors.specs.Vector.{tab, flat};
ghost use Rattle.vectors.specs.Slots.{slot, Puts};
ghost use Rattle.vectors.specs.Refusal.{all_hold, size, room, Roomy, stands_for, Ended};
ghost use Rattle.kernels.specs.Inverse as Inverse;

use crate::workspace;
use vectors::refusal::Refusal;
use vectors::{refusal, vector};

// Row i of [H | I].
fn start_row(n: usize, w: &mut [f64], i: usize, h: &[f64])
    requires { Roomy n (length w.old) × (i < n) × (length h.now ≡ n * n) }
    ensures { Puts w.old (n + n) (4 + i) (tab (n + n) (Inverse.start_entry n h.now i)) w.new }
{
    let width = n + n;
    let from = (4 + i) * width;
    let row = &mut w[from..from + width];
    for k in 0..n {
        row[k] = h[i * n + k];
        row[n + k] = if k == i { 1.0 } else { 0.0 };
    }
}

fn entry(n: usize, w: &[f64], i: usize, j: usize) -> f64
    requires { Roomy n (length w.now) × (i < n) × (j < n) }
    ensures { result ≡ Inverse.entry (Inverse.rows_in w.now n) i j }
{
    w[(4 + i) * (n + n) + j]
}

// Up to this magnitude a pivot counts as none. It is worked out once, before the rows change.
#[tactic(auto, unfolding(crate::specs::Inverse::pivot_bound))]
fn pivot_bound(h: &[f64]) -> f64
    ensures { result ≡ Inverse.pivot_bound h.now }
{
    // 2^-40
    9.094947017729282e-13 * vector::largest(h)
}

// The one place that says which pivots end in refusal 6.
#[tactic(auto, unfolding(crate::specs::Inverse::no_pivot))]
fn no_pivot(bound: f64, x: f64) -> bool
    ensures { result ≡ Inverse.no_pivot bound x }
{
    float::magnitude(x) <= bound
}

// Row p takes the numbers of row j. Mostly the pivot stands in its row already, and nothing is to be done.
fn move_row(n: usize, w: &mut [f64], j: usize, p: usize)
    requires { Roomy n (length w.old) × (j < n) × (p < n) }
    ensures { (Inverse.rows_in w.new n ≡ Inverse.with_row (Inverse.rows_in w.old n) p (Inverse.rows_in w.old n j))
        × (slot w.new (n + n) 0 ≡ slot w.old (n + n) 0) }
{
    if j != p {
        workspace::copy(n + n, w, 4 + p, 4 + j);
    }
}

// Swaps rows j and p and divides row j by its pivot: row p over it, which goes by way of the scratch's first numbers and stays
// there too, becomes row j.
fn take_pivot(n: usize, w: &mut [f64], j: usize, p: usize)
    requires { Roomy n (length w.old) × (j < n) × (p < n) }
    ensures { (Inverse.rows_in w.new n ≡ Inverse.divided n (Inverse.swapped (Inverse.rows_in w.old n) j p) j)
        × (slot w.new (n + n) 0 ≡ Inverse.rows_in w.new n j) }
{
    let pivot = entry(n, w, p, j);
    workspace::map(n + n, w, 0, 4 + p, |x| x / pivot);
    move_row(n, w, j, p);
    workspace::copy(n + n, w, 4 + j, 0);
}

// Row j is read from the scratch's first numbers, apart from the rows that change: with it among them the
// machine would take one number at a time.
fn clear_row(n: usize, w: &mut [f64], j: usize, i: usize)
    requires { Roomy n (length w.old) × (j < n) × (i < n) × (slot w.old (n + n) 0 ≡ Inverse.rows_in w.old n j) }
    ensures { (Inverse.rows_in w.new n ≡ Inverse.cleared_row n (Inverse.rows_in w.old n) j i)
        × (slot w.new (n + n) 0 ≡ slot w.old (n + n) 0) }
{
    let a = entry(n, w, i, j);
    workspace::zip(n + n, w, 4 + i, 4 + i, 0, |x, y| x - a * y);
}

fn clear_rows(n: usize, w: &mut [f64], j: usize)
    requires { Roomy n (length w.old) × (j < n) × (slot w.old (n + n) 0 ≡ Inverse.rows_in w.old n j) }
    ensures { Inverse.rows_in w.new n ≡ Inverse.cleared n (Inverse.rows_in w.old n) j n }
{
    for i in 0..n {
        if i != j {
            clear_row(n, w, j, i);
        }
    }
}

// Column after column, unless one has no pivot.
fn columns(n: usize, w: &mut [f64], bound: f64) -> Result<(), Refusal>
    requires { Roomy n (length w.old) }
    ensures { stands_for result (Inverse.rows_in w.new n) ≡ Inverse.columns bound n n 0 (Inverse.rows_in w.old n) }
{
    for j in 0..n {
        // the pivot row starts at j and moves down
        let mut p = j;
        for i in j + 1..n {
            let held = float::magnitude(entry(n, w, p, j));
            let seen = float::magnitude(entry(n, w, i, j));
            if seen > held {
                p = i;
            }
        }
        if no_pivot(bound, entry(n, w, p, j)) {
            return Err(Refusal::Pivot);
        }
        take_pivot(n, w, j, p);
        clear_rows(n, w, j);
    }
    Ok(())
}

// Leaves the rows of the elimination in w, unless a column has no pivot.
pub(crate) fn eliminate(n: usize, w: &mut [f64], h: &[f64]) -> Result<(), Refusal>
    requires { Roomy n (length w.old) × (length h.now ≡ n * n) }
    ensures { stands_for result (Inverse.rows_in w.new n) ≡ Inverse.eliminated n h.now }
{
    for i in 0..n {
        start_row(n, w, i, h);
    }
    columns(n, w, pivot_bound(h))
}

// The right half of row i, as that part of w.
fn right_row(n: usize, w: &[f64], i: usize) -> &[f64]
    requires { Roomy n (length w.now) × (i < n) }
    ensures { (result.now ≡ Inverse.right_row n (Inverse.rows_in w.now n) i) × (length result.now ≡ n) }
{
    let width = n + n;
    let from = (4 + i) * width + n;
    &w[from..from + n]
}

// Slot to, below 8, takes the product of g and the inverse that `eliminate` left in w.
pub(crate) fn inverse_times(n: usize, w: &mut [f64], to: usize, g: &[f64])
    requires { Roomy n (length w.old) × (to < 8) × (length g.now ≡ n) }
    ensures { Puts w.old n to (Inverse.inverse_times n (Inverse.rows_in w.old n) g.now) w.new }
{
    let first = to * n;
    for i in 0..n {
        w[first + i] = vector::dot_any(right_row(n, w, i), g);
    }
}

fn hand_out(n: usize, w: &[f64], out: &mut [f64])
    requires { Roomy n (length w.now) × (length out.old ≡ n * n) }
    ensures { out.new ≡ flat n (Inverse.right_row n (Inverse.rows_in w.now n)) }
{
    for i in 0..n {
        workspace::put(n, out, i, right_row(n, w, i));
    }
}

// n and the lengths of the matrix, of what takes its inverse and of the scratch are right.
fn sized(n: usize, h: usize, out: usize, scratch: usize) -> bool
    ensures { result ≡ all_hold (size n ∷ eqb h (n * n) ∷ eqb out (n * n) ∷ eqb scratch (room n) ∷ []) }
{
    refusal::size(n)
        && refusal::all_hold(&[h == n * n, out == n * n, scratch == 2 * (n * n) + 8 * n])
}

// The inverse of h, into out.
pub fn inverse(n: usize, h: &[f64], out: &mut [f64], scratch: &mut [f64]) -> Result<(), Refusal>
    ensures { Ended (Inverse.inverse_answer n h.now out.old scratch.old)
        result out.old out.new scratch.old scratch.new }
{
    Refusal::Size.unless(sized(n, h.len(), out.len(), scratch.len()))?;
    Refusal::Entry.unless(vector::all_finite(h))?;
    let found = eliminate(n, scratch, h);
    if found.is_ok() {
        hand_out(n, scratch, out);
    }
    vector::clear(scratch);
    found
}
