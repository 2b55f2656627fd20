// The encoder: the stripe of a file, in memory that the caller lends. Nothing here allocates.
#![tactic(auto, using(crate::proofs::Steps::steps, std::proofs::lemmas::Grind::common_steps))]

ghost use Rattle.code.specs.Refusals.{Least};
ghost use Rattle.encode.specs.Encoding.{Declined, Encoded};
ghost use Rattle.encode.specs.Rules.{Judged};

use cells::{cell_count, write_nodes};
use code::{Code, MOST_DATA_COLUMNS, MOST_NODES, Refusal};
use columns::complete;
use field::Field;
use points::Points;
use rules::Cells;
use sums::all_symbols;

mod cells;
mod columns;
mod groups;
mod points;
mod rules;
mod sums;
mod vandermonde;

pub use sums::column_sum;

// The refusal with the smallest number of those that hold, for a memory of `room` numbers.
fn due<F: Field>(code: &Code, file: &[u16], room: usize) -> Option<Refusal>
    ensures { Least (Declined F.ops code.now file.now room) result }
{
    if room < cell_count(code) {
        return Some(Refusal::Shape);
    }
    if file.len() != code.file_length() {
        return Some(Refusal::Length);
    }
    if !all_symbols::<F>(file) {
        return Some(Refusal::Symbol);
    }
    None
}

/// Writes the stripe of the file into the first n·(m + a) numbers of `cells`, cell (j, c) at j·(m + a) + c, and
/// returns how many they are. The others stay as they are. It is declined with 2 if `cells` is shorter, with 3 if the
/// file's length is not k·m, with 6 if one of its numbers is no symbol of the field; then all of `cells` stays.
pub fn encode<F: Field>(code: &Code, file: &[u16], cells: &mut [u16]) -> Result<usize, Refusal>
    ensures { Encoded F.ops code.now file.now cells.old result cells.new }
{
    if let Some(e) = due::<F>(code, file, cells.len()) {
        return Err(e);
    }
    let points = Points::<F>::new();
    let mut columns = [[0; MOST_NODES]; MOST_DATA_COLUMNS];
    complete(code, file, &points, &mut columns);
    write_nodes(code, &points, &columns, cells);
    Ok(cell_count(code))
}

/// Whether the first n·(m + a) numbers of `cells` are symbols of the field that keep the column rule and the group
/// rule. Declined with 2 if `cells` is shorter.
pub fn keeps_rules<F: Field>(code: &Code, cells: &[u16]) -> Result<bool, Refusal>
    ensures { Judged F.ops code.now cells.now result }
{
    let cells = Cells::new(code, cells)?;
    Ok(cells.keeps_rules::<F>())
}
