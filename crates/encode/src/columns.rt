// The data columns of a stripe, completed side by side in scratch memory.
ghost use Rattle.std.specs.Prelude.{◌≡◌, ℕ, ◌+◌, ◌*◌, ◌<◌, length, ◌≢◌, slice_index};
ghost use Rattle.field.specs.Laws.{power};
ghost use Rattle.algebra.specs.Sums.{sum, syndrome};
ghost use Rattle.code.specs.Stripe.{IsFile, parity};
ghost use Rattle.encode.specs.Scratch.{DataColumns, SameData, Starts, in_columns, target};

use crate::points::Points;
use crate::sums::{powers, weighted_sum};
use crate::vandermonde::solve;
use code::{Code, MOST_DATA_COLUMNS, MOST_NODES};
use field::Field;

/// A column of the scratch memory: a place for each node that a code can have.
pub(crate) type Column = [u16; MOST_NODES];

/// One for each data column that a code can have. In a struct of the code and its columns, each method that writes
/// would have to promise that the code stays, so the two stand side by side in the calls below.
pub(crate) type Columns = [Column; MOST_DATA_COLUMNS];

// Copies the file's symbols of column t to its data places.
fn gather(code: &Code, file: &[u16], t: usize, column: &mut Column)
    requires file { length file.now ≡ code.now.k * code.now.m }
    requires inside { t < code.now.m }
    ensures { (j : ℕ) → j < code.now.k → slice_index column.new j ≡ slice_index file.now (j * code.now.m + t) }
{
    let m = code.data_columns();
    let places = &mut column[..code.data_nodes()];
    for (j, x) in places.iter_mut().enumerate() {
        *x = file[j * m + t];
    }
}

// Puts the file's symbols into the data places of all columns.
fn place_file(code: &Code, file: &[u16], columns: &mut Columns)
    requires { length file.now ≡ code.now.k * code.now.m }
    ensures { Starts code.now file.now (in_columns columns.new) }
{
    // By index: no proof covers a column of `iter_mut` that is handed on.
    for t in 0..code.data_columns() {
        gather(code, file, t, &mut columns[t]);
    }
}

// The target of the syndrome with these weights goes to parity place i of the column.
fn set_target<F: Field>(code: &Code, i: usize, weights: &[u16], column: &mut Column)
    requires place { i < parity code.now }
    requires weights { length weights.now ≡ code.now.k }
    ensures made { slice_index column.new (code.now.k + i)
        ≡ F.ops.sub 0
        (sum F.ops code.now.k (λ j. F.ops.mul (slice_index weights.now j) (slice_index column.old j))) }
    ensures kept { (j : ℕ) → (j ≢ code.now.k + i) → slice_index column.new j ≡ slice_index column.old j }
{
    let k = code.data_nodes();
    let sum = weighted_sum::<F>(weights, &column[..k]);
    column[k + i] = F::difference(0, sum);
}

// Puts the target of that syndrome into each column.
fn set_targets<F: Field>(code: &Code, i: usize, weights: &[u16], columns: &mut Columns)
    requires place { i < parity code.now }
    requires weights { length weights.now ≡ code.now.k }
    ensures made { (t : ℕ) → t < code.now.m
        → in_columns columns.new (code.now.k + i) t
        ≡ F.ops.sub 0
        (sum F.ops code.now.k (λ j. F.ops.mul (slice_index weights.now j) (in_columns columns.old j t))) }
    ensures kept { (j t : ℕ) → (j ≢ code.now.k + i) → in_columns columns.new j t ≡ in_columns columns.old j t }
{
    // By index, for the same reason.
    for t in 0..code.data_columns() {
        set_target::<F>(code, i, weights, &mut columns[t]);
    }
}

// The targets of all syndromes go to the parity places.
fn all_targets<F: Field>(code: &Code, points: &Points<F>, columns: &mut Columns)
    ensures made { (i t : ℕ) → i < parity code.now → t < code.now.m
        → in_columns columns.new (code.now.k + i) t ≡ target F.ops code.now (in_columns columns.old) i t }
    ensures kept { SameData code.now (in_columns columns.new) (in_columns columns.old) }
{
    let mut room = [0; MOST_NODES];
    let weights = &mut room[..code.data_nodes()];
    // The number i names both a point and a place.
    for i in 0..code.parity_nodes() {
        powers::<F>(points.powers[i], weights);
        set_targets::<F>(code, i, weights, columns);
    }
}

// Solves a column for its targets, in its parity places.
fn solve_column<F: Field>(code: &Code, points: &Points<F>, column: &mut Column)
    requires { (i : ℕ) → i < parity code.now → slice_index column.old (code.now.k + i) < F.ops.q }
    ensures reached { (i : ℕ) → i < parity code.now
        → syndrome F.ops (parity code.now) (λ v. power F.ops F.ops.α (code.now.k + v))
        (λ v. slice_index column.new (code.now.k + v)) i ≡ slice_index column.old (code.now.k + i) }
    ensures below { (v : ℕ) → v < parity code.now → slice_index column.new (code.now.k + v) < F.ops.q }
    ensures kept { (j : ℕ) → j < code.now.k → slice_index column.new j ≡ slice_index column.old j }
{
    let k = code.data_nodes();
    let n = code.nodes();
    solve::<F>(&points.powers[k..n], &mut column[k..n]);
}

// Solves each column.
fn solve_all<F: Field>(code: &Code, points: &Points<F>, columns: &mut Columns)
    requires { (i t : ℕ) → i < parity code.now → t < code.now.m
        → in_columns columns.old (code.now.k + i) t < F.ops.q }
    ensures reached { (i t : ℕ) → i < parity code.now → t < code.now.m
        → syndrome F.ops (parity code.now) (λ v. power F.ops F.ops.α (code.now.k + v))
        (λ v. in_columns columns.new (code.now.k + v) t) i ≡ in_columns columns.old (code.now.k + i) t }
    ensures below { (v t : ℕ) → v < parity code.now → t < code.now.m
        → in_columns columns.new (code.now.k + v) t < F.ops.q }
    ensures kept { SameData code.now (in_columns columns.new) (in_columns columns.old) }
{
    // By index, for the same reason.
    for t in 0..code.data_columns() {
        solve_column(code, points, &mut columns[t]);
    }
}

/// Fills the scratch memory with the data columns of the file's stripe.
pub(crate) fn complete<F: Field>(
    code: &Code,
    file: &[u16],
    points: &Points<F>,
    columns: &mut Columns,
)
    requires { IsFile F.ops code.now file.now }
    ensures { DataColumns F.ops code.now file.now (in_columns columns.new) }
{
    place_file(code, file, columns);
    all_targets(code, points, columns);
    solve_all(code, points, columns);
}
