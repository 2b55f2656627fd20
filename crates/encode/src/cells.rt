// The cells of a stripe, written from its data columns.
ghost use Rattle.std.specs.Prelude.{◌≡◌, ℕ, ◌<◌, ◌≤◌, length, slice_index};
ghost use Rattle.code.specs.Stripe.{width};
ghost use Rattle.encode.specs.Encoding.{cell_count, in_memory};
ghost use Rattle.encode.specs.Scratch.{cell_of, in_columns};

use crate::columns::Columns;
use crate::groups::{Weights, back, group_sum};
use crate::points::Points;
use code::Code;
use field::Field;

/// How many cells a code has, n·(m + a).
pub(crate) fn cell_count(code: &Code) -> usize
    ensures { result ≡ cell_count code.now }
{
    code.nodes() * code.columns()
}

// The symbol of node v, column c: coded column i has there the sum of the group of node ⟨v − i⟩.
fn cell<F: Field>(code: &Code, weights: &Weights<F>, columns: &Columns, v: usize, c: usize) -> u16
    requires node { v < code.now.n }
    requires column { c < width code.now }
    ensures { result ≡ cell_of F.ops code.now (in_columns columns.now) v c }
{
    let m = code.data_columns();
    if c < m {
        columns[c][v]
    } else {
        let i = c - m;
        let j = back(code.nodes(), v, i);
        group_sum(code, weights, |u, t| columns[t][u], j, i)
    }
}

// Writes the cells of node v.
fn write_node<F: Field>(
    code: &Code,
    weights: &Weights<F>,
    columns: &Columns,
    v: usize,
    row: &mut [u16],
)
    requires node { v < code.now.n }
    requires row { length row.old ≡ width code.now }
    ensures { (c : ℕ) → c < width code.now
        → slice_index row.new c ≡ cell_of F.ops code.now (in_columns columns.now) v c }
{
    for (c, x) in row.iter_mut().enumerate() {
        *x = cell(code, weights, columns, v, c);
    }
}

/// Writes the cells of all nodes, one node after the other.
pub(crate) fn write_nodes<F: Field>(
    code: &Code,
    points: &Points<F>,
    columns: &Columns,
    cells: &mut [u16],
)
    requires { cell_count code.now ≤ length cells.old }
    ensures written { (v c : ℕ) → v < code.now.n → c < width code.now
        → in_memory code.now cells.new v c ≡ cell_of F.ops code.now (in_columns columns.now) v c }
    ensures kept { (p : ℕ) → cell_count code.now ≤ p → slice_index cells.new p ≡ slice_index cells.old p }
{
    let weights = Weights::new(points);
    let width = code.columns();
    // By index: after `chunks_exact_mut` a proof knows the length of `cells` alone.
    for v in 0..code.nodes() {
        let at = v * width;
        write_node(code, &weights, columns, v, &mut cells[at..at + width]);
    }
}
