// The factors of a file's places in the cells of its stripe.
ghost use Rattle.std.specs.Prelude.{◌≡◌, ℕ, ◌+◌, ◌*◌, ◌<◌, ◌≤◌, length, ◌≢◌, [], slice_index, slice_index_or};
ghost use Rattle.code.specs.Stripe.{width};
ghost use Rattle.theorems.specs.Linear.{IsFactor};
ghost use Rattle.encode.specs.Encoding.{in_memory};
ghost use Rattle.solve.specs.Factors.{ColumnOf, ColumnTable, Weight, IsEquation};

use crate::numbers::times;
use code::{Code, MOST_CELLS, MOST_NODES, MOST_SYMBOLS};
use encode::encode;
use field::{Field, power};

// A data column, one number for each node that a code can have.
type Column = [u16; MOST_NODES];

// The unit columns of a code: number j is the data column that is 1 at data node j and 0 at the others.
pub(crate) type Table = [Column; MOST_NODES];

// Encodes the file that is 1 at data node j, column 0, and 0 elsewhere.
fn encode_unit<F: Field>(code: &Code, j: usize, file: &mut [u16], cells: &mut [u16; MOST_CELLS])
    requires node { j < code.now.k }
    requires file { length file.old ≡ code.now.k * code.now.m }
    ensures { IsFactor F.ops code.now (j * code.now.m) (in_memory code.now cells.new) }
{
    file.fill(0);
    file[j * code.data_columns()] = 1;
    // never declined: the file has the code's length, and the cells have room for every code
    let _ = encode::<F>(code, file, cells);
}

// The data column that is 1 at data node j and 0 at the others.
fn unit_column<F: Field>(code: &Code, j: usize, column: &mut Column)
    requires { j < code.now.k }
    ensures { ColumnOf F.ops code.now j column.new }
{
    let mut file = [0; MOST_SYMBOLS];
    let mut cells = [0; MOST_CELLS];
    encode_unit::<F>(code, j, &mut file[..code.file_length()], &mut cells);
    let columns = code.columns();
    let nodes = &mut column[..code.nodes()];
    for (v, x) in nodes.iter_mut().enumerate() {
        *x = cells[v * columns];
    }
}

// The data columns of the k unit columns, one for each data node.
pub(crate) fn column_table<F: Field>(code: &Code) -> Table
    ensures { ColumnTable F.ops code.now result }
{
    let mut table = [[0; MOST_NODES]; MOST_NODES];
    // by index: no proof covers a column of `iter_mut` that is handed on
    for j in 0..code.data_nodes() {
        unit_column::<F>(code, j, &mut table[j]);
    }
    table
}

// How cell (v, c) depends on the symbols of data column t: by the cell (w, t) of that column, times a symbol.
fn weight<F: Field>(code: &Code, v: usize, c: usize, t: usize) -> (usize, u32)
    requires node { v < code.now.n }
    requires column { c < width code.now }
    requires data_column { t < code.now.m }
    ensures { Weight F.ops code.now v c t result.0 result.1 }
{
    let m = code.data_columns();
    if c < m {
        return (v, if c == t { 1 } else { 0 });
    }
    let i = c - m;
    let scale = power::<F>(F::GENERATOR, i * t);
    (code.behind(code.behind(v, i), t + 1), u32::from(scale))
}

// Puts the factors of the places (j, t) into a row: `scale` times what column j holds at node w.
fn put_factors<F: Field>(
    code: &Code,
    table: &Table,
    w: usize,
    scale: u32,
    t: usize,
    row: &mut [u32],
)
    requires node { w < code.now.n }
    requires data_column { t < code.now.m }
    requires row { code.now.k * code.now.m ≤ length row.old }
    ensures made { (j : ℕ) → j < code.now.k
        → slice_index row.new (j * code.now.m + t) ≡ F.ops.mul scale (slice_index (slice_index_or table.now j []) w) }
    ensures kept { (i : ℕ) → ((j : ℕ) → j < code.now.k → i ≢ j * code.now.m + t)
        → slice_index row.new i ≡ slice_index row.old i }
{
    let m = code.data_columns();
    for (j, column) in table[..code.data_nodes()].iter().enumerate() {
        row[j * m + t] = times::<F>(scale, u32::from(column[w]));
    }
}

// Makes a row the equation of the cell (v, c) that holds the value.
pub(crate) fn equation<F: Field>(
    code: &Code,
    table: &Table,
    v: usize,
    c: usize,
    value: u16,
    row: &mut [u32],
)
    requires node { v < code.now.n }
    requires column { c < width code.now }
    requires table { ColumnTable F.ops code.now table.now }
    requires row { length row.old ≡ code.now.k * code.now.m + 1 }
    ensures { IsEquation F.ops code.now v c value row.new }
{
    for t in 0..code.data_columns() {
        let (w, scale) = weight::<F>(code, v, c, t);
        put_factors::<F>(code, table, w, scale, t, row);
    }
    row[code.file_length()] = u32::from(value);
}
