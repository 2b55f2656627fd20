// The cells of a store, gathered in a list.
ghost use Rattle.solve.specs.Cells.{Gathered};

use code::{Code, MOST_CELLS, Refusal};
use field::Field;
use store::Store;

// Lists all cells in order of node and column. A present one that is no symbol of the field is refused with 7.
pub(crate) fn gather<F: Field, S: Store>(
    code: &Code,
    store: &S,
) -> Result<[Option<u16>; MOST_CELLS], Refusal>
    ensures { Gathered F.ops code.now (S.meaning store.now).cell result }
{
    let columns = code.columns();
    let mut cells = [None; MOST_CELLS];
    // by index: over `iter_mut` of the part that is filled the proof did not close, since its length stayed open
    for x in 0..code.nodes() * columns {
        let (node, column) = (x / columns, x % columns);
        match store.cell(node, column) {
            Some(v) if u32::from(v) >= F::SIZE => return Err(Refusal::Foreign { node, column }),
            held => cells[x] = held,
        }
    }
    Ok(cells)
}
