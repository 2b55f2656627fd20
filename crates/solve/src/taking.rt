// The system of all present cells.
ghost use Rattle.std.specs.Prelude.{◌≡◌, ◌*◌, ◌<◌};
ghost use Rattle.solve.specs.Systems.{entry, Reduced, KnownRows, Unless};
ghost use Rattle.solve.specs.Factors.{ColumnTable};
ghost use Rattle.encode.specs.Encoding.{cell_count};
ghost use Rattle.solve.specs.Cells.{ListsSymbols, Loaded, Took, TookAll, Contradicts, DataMet};

use crate::factors::{Table, equation};
use crate::system::Equations;
use code::{Code, MOST_CELLS, MOST_SYMBOLS, Refusal};
use field::Field;
use std::marker::PhantomData;

// The numbers of a row that has a factor for each symbol of the longest file, and a right side.
pub(crate) const ROW: usize = MOST_SYMBOLS + 1;

// The cells of a store, each a symbol or lost, and the table of which the equations of the present ones are made.
// That there is an equation for each symbol of a file stays a clause of the methods: in a struct around `Equations` the
// proof did not close, since nothing is known afterwards of the numbers that it borrows.
#[derive(Drop)]
pub(crate) struct Listing<'c, F: Field> {
    pub(crate) code: &'c Code,
    pub(crate) cells: &'c [Option<u16>; MOST_CELLS],
    pub(crate) table: &'c Table,
    pub(crate) field: PhantomData<F>,
    ghost symbols: { ListsSymbols F.ops code.now cells.now },
    ghost factors: { ColumnTable F.ops code.now table.now },
}

impl<F: Field> Listing<'_, F> {
    // Enters the present data cells of the first k nodes: the equation of each of these symbols says what it is.
    pub(crate) fn load(&self, equations: &mut Equations<'_>, known: &mut [bool; MOST_SYMBOLS])
        requires length { equations.old.n ≡ self.now.code.now.k * self.now.code.now.m }
        requires blank { Loaded self.now.code.now self.now.cells.now 0 equations.old.numbers.now known.old }
        ensures size { equations.new.n ≡ equations.old.n }
        ensures memory { equations.new.numbers.ghost_name ≡ equations.old.numbers.ghost_name }
        ensures loaded { Loaded self.now.code.now self.now.cells.now (self.now.code.now.k * self.now.code.now.m)
            equations.new.numbers.now known.new }
    {
        let m = self.code.data_columns();
        let columns = self.code.columns();
        // by index: p is the place of a symbol, in the file, in the equations and in the marks
        for p in 0..self.code.file_length() {
            if let Some(value) = self.cells[p / m * columns + p % m] {
                equations.enter(p, value);
                known[p] = true;
            }
        }
    }

    // Takes up cell number x of the list, unless it is lost or a data cell of the first k nodes. The row is scratch
    // memory.
    fn take_cell(
        &self,
        known: &[bool; MOST_SYMBOLS],
        x: usize,
        row: &mut [u32; ROW],
        equations: &mut Equations<'_>,
    ) -> Result<(), Refusal>
        requires length { equations.old.n ≡ self.now.code.now.k * self.now.code.now.m }
        requires inside { x < cell_count self.now.code.now }
        requires marked { KnownRows equations.old.n known.now (entry equations.old.n equations.old.numbers.now) }
        requires reduced { Reduced F.ops equations.old.n (entry equations.old.n equations.old.numbers.now) }
        ensures size { equations.new.n ≡ equations.old.n }
        ensures memory { equations.new.numbers.ghost_name ≡ equations.old.numbers.ghost_name }
        ensures took { Took F.ops self.now.code.now self.now.cells.now known.now x
            (entry equations.old.n equations.old.numbers.now) result
            (entry equations.old.n equations.new.numbers.now) }
    {
        let columns = self.code.columns();
        let (v, c) = (x / columns, x % columns);
        let Some(value) = self.cells[x] else {
            return Ok(());
        };
        if v < self.code.data_nodes() && c < self.code.data_columns() {
            return Ok(());
        }
        let row = &mut row[..self.code.file_length() + 1];
        equation::<F>(self.code, self.table, v, c, value, row);
        equations.absorb::<F>(known, row)
    }

    // Takes up all cells, unless one contradicts the others.
    pub(crate) fn take_cells(
        &self,
        known: &[bool; MOST_SYMBOLS],
        row: &mut [u32; ROW],
        equations: &mut Equations<'_>,
    ) -> Result<(), Refusal>
        requires length { equations.old.n ≡ self.now.code.now.k * self.now.code.now.m }
        requires marked { KnownRows equations.old.n known.now (entry equations.old.n equations.old.numbers.now) }
        requires reduced { Reduced F.ops equations.old.n (entry equations.old.n equations.old.numbers.now) }
        requires met { DataMet F.ops self.now.code.now self.now.cells.now
            (entry equations.old.n equations.old.numbers.now) }
        ensures size { equations.new.n ≡ equations.old.n }
        ensures memory { equations.new.numbers.ghost_name ≡ equations.old.numbers.ghost_name }
        ensures took { Unless result
            (TookAll F.ops self.now.code.now self.now.cells.now known.now (cell_count self.now.code.now)
            (entry equations.old.n equations.old.numbers.now) (entry equations.old.n equations.new.numbers.now))
            (Contradicts F.ops self.now.code.now self.now.cells.now (entry equations.old.n equations.old.numbers.now)) }
    {
        // by index: x is divided into a node and a column
        for x in 0..self.code.nodes() * self.code.columns() {
            self.take_cell(known, x, row, equations)?;
        }
        Ok(())
    }
}
