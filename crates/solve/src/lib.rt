// What the cells that are present determine: the symbol that all fitting files share, or that no file fits, or that
// two fitting files differ. A file fits if its stripe agrees with every present cell; any cells may be lost, and the
// present ones need not come from a stripe. Nothing here allocates: the caller lends the work memory.
#![tactic(auto)]

ghost use Rattle.std.specs.Prelude.{◌≡◌, ◌<◌, ◌≤◌, length, IfOk, IfErr};
ghost use Rattle.code.specs.declared.refusal.Refusal.TheVariants.{Work};
ghost use Rattle.code.specs.Work.{front, WorkAfter};
ghost use Rattle.solve.specs.Answers.{SharedSymbol, OnlyFile};

mod cells;
mod factors;
mod front;
mod numbers;
mod reading;
mod rows;
mod system;
mod taking;

use code::{Code, Refusal};
use field::Field;
use reading::{decide, find_only};
use store::Store;

// How many numbers the front of the work memory has, if the memory has as many.
fn front_size(code: &Code, work: &[u32]) -> Result<usize, Refusal>
    ensures size { IfOk result (λ size. (size ≡ front code.now) × (size ≤ length work.now)) }
    ensures work { IfErr result (λ e. (e ≡ Work) × (length work.now < front code.now)) }
{
    let n = code.file_length();
    let size = n * (n + 1);
    if work.len() < size {
        return Err(Refusal::Work);
    }
    Ok(size)
}

/// The symbol that all fitting files share at the place (row, column). Declined with 4 if the work memory is below
/// k·m·(k·m + 1) numbers, with 5 if the place is outside, with 7 for the first present cell that is no symbol, with
/// 9 if no file fits, and with 10 if two fitting files differ there. Declined with 4 or 5, the work memory is as it
/// was; otherwise its first k·m·(k·m + 1) numbers are zeros afterwards, and those behind are kept.
pub fn shared_symbol<F: Field, S: Store>(
    code: &Code,
    store: &S,
    row: usize,
    column: usize,
    work: &mut [u32],
) -> Result<u16, Refusal>
    ensures answer { SharedSymbol F.ops code.now (S.meaning store.now).cell row column (length work.old) result }
    ensures work { WorkAfter code.now work.old result work.new }
{
    let size = front_size(code, work)?;
    if row >= code.data_nodes() || column >= code.data_columns() {
        return Err(Refusal::Outside);
    }
    let place = row * code.data_columns() + column;
    decide::<F, S>(code, store, place, &mut work[..size])
}

/// Leaves the only fitting file in the first k·m numbers of the work memory, and returns k·m. Declined with 4 if the
/// work memory is below k·m·(k·m + 1) numbers, with 7 for the first present cell that is no symbol, with 9 if no file
/// fits, and with 10 if two different files fit. Declined with 4, the work memory is as it was; otherwise the first
/// k·m·(k·m + 1) numbers, behind the file if there is one, are zeros afterwards, and those behind them are kept.
pub fn only_file<F: Field, S: Store>(
    code: &Code,
    store: &S,
    work: &mut [u32],
) -> Result<usize, Refusal>
    ensures { OnlyFile F.ops code.now (S.meaning store.now).cell work.old result work.new }
{
    let size = front_size(code, work)?;
    find_only::<F, S>(code, store, &mut work[..size])
}
