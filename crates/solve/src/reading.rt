// What the system of the present cells decides.
ghost use Rattle.std.specs.Prelude.{◌≡◌, ℕ, ◌*◌, ◌<◌, ◌≤◌, length, OnErr, slice_index};
ghost use Rattle.code.specs.Work.{front};
ghost use Rattle.solve.specs.Systems.{Unless};
ghost use Rattle.solve.specs.Cells.{ListsSymbols};
ghost use Rattle.solve.specs.Decisions.{Complete, NoneMeets, Built, Decided, OnlyDecided};

use crate::cells::gather;
use crate::factors::column_table;
use crate::front::Front;
use crate::system::Equations;
use crate::taking::{Listing, ROW};
use code::{Code, MOST_CELLS, MOST_SYMBOLS, Refusal};
use field::Field;
use std::marker::PhantomData;
use store::Store;

// Makes the equations the system of the listed cells, unless they contradict one another.
fn build<F: Field>(
    code: &Code,
    cells: &[Option<u16>; MOST_CELLS],
    equations: &mut Equations<'_>,
) -> Result<(), Refusal>
    requires length { equations.old.n ≡ code.now.k * code.now.m }
    requires symbols { ListsSymbols F.ops code.now cells.now }
    ensures size { equations.new.n ≡ equations.old.n }
    ensures memory { equations.new.numbers.ghost_name ≡ equations.old.numbers.ghost_name }
    ensures built { Unless result (Complete F.ops code.now cells.now equations.new.numbers.now)
        (NoneMeets F.ops code.now cells.now) }
{
    let table = column_table::<F>(code);
    let listing = Listing::<F> {
        code,
        cells,
        table: &table,
        field: PhantomData,
    };
    let mut known = [false; MOST_SYMBOLS];
    equations.clear();
    listing.load(equations, &mut known);
    listing.take_cells(&known, &mut [0; ROW], equations)
}

// Makes the equations the system of the store's cells.
fn solve<F: Field, S: Store>(
    code: &Code,
    store: &S,
    equations: &mut Equations<'_>,
) -> Result<(), Refusal>
    requires { equations.old.n ≡ code.now.k * code.now.m }
    ensures size { equations.new.n ≡ equations.old.n }
    ensures memory { equations.new.numbers.ghost_name ≡ equations.old.numbers.ghost_name }
    ensures built { Built F.ops code.now (S.meaning store.now).cell equations.new.numbers.now result }
{
    let cells = gather::<F, S>(code, store)?;
    build::<F>(code, &cells, equations)
}

// The symbol that all fitting files share at a place. Zeros are left in the memory.
pub(crate) fn decide<F: Field, S: Store>(
    code: &Code,
    store: &S,
    place: usize,
    work: &mut [u32],
) -> Result<u16, Refusal>
    requires front { length work.old ≡ front code.now }
    requires place { place < code.now.k * code.now.m }
    ensures decided { Decided F.ops code.now (S.meaning store.now).cell place result }
    ensures zeros { (p : ℕ) → slice_index work.new p ≡ 0 }
{
    // these lines stand in `find_only`, too: what is borrowed from the front does not outlive it
    let front = Front { numbers: work };
    let numbers = &mut *front.numbers;
    let mut equations = Equations::new(numbers, code.file_length());
    solve::<F, S>(code, store, &mut equations)?;
    match equations.lone(place) {
        // a symbol, so that nothing is lost; `try_from` would want an answer for numbers that do not occur
        Some(value) => Ok(value as u16),
        None => Err(Refusal::Ambiguous),
    }
}

// Leaves the only fitting file in the front of work memory, with zeros behind it, and returns its length. Otherwise
// zeros are left in the memory.
pub(crate) fn find_only<F: Field, S: Store>(
    code: &Code,
    store: &S,
    work: &mut [u32],
) -> Result<usize, Refusal>
    requires { length work.old ≡ front code.now }
    ensures decided { OnlyDecided F.ops code.now (S.meaning store.now).cell work.new result }
    ensures zeros { OnErr result ((p : ℕ) → slice_index work.new p ≡ 0) }
{
    let front = Front { numbers: work };
    let numbers = &mut *front.numbers;
    let mut equations = Equations::new(numbers, code.file_length());
    solve::<F, S>(code, store, &mut equations)?;
    if !equations.all_lone() {
        return Err(Refusal::Ambiguous);
    }
    equations.move_right_sides();
    clear_from(numbers, code.file_length());
    front.keep();
    Ok(code.file_length())
}

// Puts zeros from number n on.
fn clear_from(numbers: &mut [u32], n: usize)
    requires { n ≤ length numbers.old }
    ensures kept { (p : ℕ) → p < n → slice_index numbers.new p ≡ slice_index numbers.old p }
    ensures zeros { (p : ℕ) → n ≤ p → slice_index numbers.new p ≡ 0 }
{
    numbers[n..].fill(0);
}
