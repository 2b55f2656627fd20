//! Stores of cells: what every store does, and a store over a row of numbers.
#![tactic(auto)]

ghost use Rattle.std.specs.Prelude.{◌≡◌, ℕ, length, replicate, Option, Some, None};
ghost use Rattle.std.specs.Bool.{OnTrue, OnFalse};
ghost use Rattle.store.specs.Meaning.{Meaning, Lawful, Changed, Edits, Frames, Framed, Spares, Same, Blank, allowed};
ghost use Rattle.store.specs.Sizes.{counted_columns, whole_nodes};
ghost use Rattle.store.specs.Grids.{PutNumber, Later, grid, numbers, meaning_of, lost_mark, Place};
ghost use Rattle.store.specs.Shown.{grid_lawful, grid_edits, later_frames, edits_later, same_spares};

mod lent;
mod shape;

pub use lent::Grid;
pub use shape::{Shape, count_columns, count_nodes};

// A cell is two numbers, the node and the column, here and in the crates above: a type for the pair would stand
// in every public signature, and the clauses would speak of its two numbers as before.

/// A store of cells. The questions change nothing and tell the meaning. `attempt`, `edit`, `write` and `lose`
/// say whether the change was taken: that is so exactly where there is such a cell and the allowance is not
/// used up. A change that is not taken leaves the meaning as it is, and where `edit` declines, the store itself
/// stays as it is.
///
/// An implementation writes `attempt`, and the others are made of it.
pub trait Store {
    /// the nodes, the columns, what each cell holds, and the allowance
    ghost meaning: { Self → Meaning };

    /// what a write (`Some` of the symbol) or a loss (`None`) of one cell, where it is taken, does to the
    /// store itself and to the memory that it lies in
    ghost edited: { Self → ℕ → ℕ → Option ℕ → Self → Type 0 };

    /// what a change that is not taken does to the store itself: to a grid and to a card nothing; another
    /// store may note it, outside its meaning
    ghost declines: { Self → Self → Type 0 };

    /// what any number of changes keeps: a store over lent memory is still over the same memory
    ghost frame: { Self → Self → Type 0 };

    /// How many nodes there are.
    fn nodes(&self) -> usize
        ensures { result ≡ (meaning self.now).nodes };

    /// How many columns there are.
    fn columns(&self) -> usize
        ensures { result ≡ (meaning self.now).columns };

    /// What a cell holds, or `None` where it is lost or outside.
    fn cell(&self, j: usize, c: usize) -> Option<u16>
        ensures { result ≡ (meaning self.now).cell j c };

    /// How many changes are still taken, wherever their cells are inside.
    fn allowance(&self) -> usize
        ensures { result ≡ (meaning self.now).allowance };

    /// Writes a symbol into a cell, or loses the cell where `v` is `None`. What that does to the meaning
    /// and to the frame follows by the laws below.
    fn attempt(&mut self, j: usize, c: usize, v: Option<u16>) -> bool
        ensures answer { result ≡ allowed (meaning self.old) j c }
        ensures edited { OnTrue result (edited self.old j c v self.new) }
        ensures declined { OnFalse result (declines self.old self.new) };

    /// The same, but it asks first whether the change is allowed, and attempts no other: one that is declined leaves
    /// the store itself as it was.
    fn edit(&mut self, j: usize, c: usize, v: Option<u16>) -> bool
        ensures answer { result ≡ allowed (meaning self.old) j c }
        ensures edited { OnTrue result (edited self.old j c v self.new) }
        ensures declined { OnFalse result (self.new ≡ self.old) }
    {
        let allowed = j < self.nodes() && c < self.columns() && self.allowance() > 0;
        allowed && self.attempt(j, c, v)
    }

    /// Writes a symbol into a cell.
    fn write(&mut self, j: usize, c: usize, s: u16) -> bool
        ensures answer { result ≡ allowed (meaning self.old) j c }
        ensures changed { Changed (meaning self.old) j c (Some s) result (meaning self.new) }
        ensures framed { frame self.old self.new }
        ensures edited { OnTrue result (edited self.old j c (Some s) self.new) }
        ensures declined { OnFalse result (declines self.old self.new) }
    {
        self.attempt(j, c, Some(s))
    }

    /// Loses a cell.
    fn lose(&mut self, j: usize, c: usize) -> bool
        ensures answer { result ≡ allowed (meaning self.old) j c }
        ensures changed { Changed (meaning self.old) j c None result (meaning self.new) }
        ensures framed { frame self.old self.new }
        ensures edited { OnTrue result (edited self.old j c None self.new) }
        ensures declined { OnFalse result (declines self.old self.new) }
    {
        self.attempt(j, c, None)
    }

    /// a cell outside is told as lost, and no cell holds a number above 65,535
    ghost lawful: { (s : Self) → Lawful (meaning s) };

    /// what an edit does to a store decides what it does to the meaning
    ghost edits: { Edits meaning edited };

    /// a change keeps the frame, and so do many
    ghost frames: { Frames frame };

    /// an edit keeps the frame
    ghost framed: { Framed meaning edited frame };

    /// a change that is not taken leaves the meaning as it is, and keeps the frame
    ghost spares: { Spares meaning declines frame };
}

// It is a number and no `None`, since the row that the owner lends and reads holds numbers alone.

/// The number with which a loss marks a cell of a grid. Any number above 65,535 is a lost cell.
pub const LOST: u32 = u32::MAX;

// A grid's allowance, which no change spends.
const ALLOWANCE: usize = 65535;

impl<'a> Grid<'a> {
    // `nodes` and `columns` are asked for and no Shape, here as for a card and in the check of one: any two
    // numbers are taken, and how they are counted is part of the answer.

    /// A grid over memory that keeps its numbers. Nodes that do not fit whole are dropped.
    pub fn take_up(nodes: usize, columns: usize, memory: &'a mut [u32]) -> Grid<'a>
        ensures means { meaning_of result
            ≡ grid memory.old (whole_nodes nodes columns (length memory.old)) (counted_columns columns) }
        ensures held { numbers result ≡ memory.old }
        ensures named { result.cells.ghost_name ≡ memory.entry.ghost_name }
    {
        let shape = Shape::fitting(nodes, columns, memory.len());
        Grid {
            cells: memory,
            shape,
        }
    }

    /// A grid whose cells are all lost: every number of the memory becomes the mark of a lost cell.
    pub fn blank(nodes: usize, columns: usize, memory: &'a mut [u32]) -> Grid<'a>
        ensures means { meaning_of result
            ≡ grid (replicate (length memory.old) lost_mark) (whole_nodes nodes columns (length memory.old))
            (counted_columns columns) }
        ensures blank { Blank (meaning_of result) }
        ensures held { numbers result ≡ replicate (length memory.old) lost_mark }
        ensures named { result.cells.ghost_name ≡ memory.entry.ghost_name }
    {
        memory.fill(LOST);
        Grid::take_up(nodes, columns, memory)
    }

    // The place of cell (j, c) in the row, if the cell is inside.
    fn place(&self, j: usize, c: usize) -> Option<usize>
        ensures { Place self.now j c result }
    {
        if self.shape.has(j, c) {
            Some(j * self.shape.columns + c)
        } else {
            None
        }
    }
}

impl<'a> Store for Grid<'a> {
    ghost meaning = { meaning_of };

    ghost edited = { PutNumber };

    ghost declines = { Same };

    ghost frame = { Later };

    ghost lawful = { grid_lawful };

    ghost edits = { grid_edits };

    ghost frames = { later_frames };

    ghost framed = { edits_later };

    ghost spares = { same_spares meaning_of Later later_frames };

    fn nodes(&self) -> usize {
        self.shape.nodes
    }

    fn columns(&self) -> usize {
        self.shape.columns
    }

    fn cell(&self, j: usize, c: usize) -> Option<u16> {
        u16::try_from(self.cells[self.place(j, c)?]).ok()
    }

    fn allowance(&self) -> usize {
        ALLOWANCE
    }

    fn attempt(&mut self, j: usize, c: usize, v: Option<u16>) -> bool {
        match self.place(j, c) {
            None => false,
            Some(at) => {
                self.cells[at] = v.map_or(LOST, u32::from);
                true
            }
        }
    }
}

#[cfg(test)]
mod tests {
    use super::*;

    // A change of a cell inside is made, and one outside leaves the row as it is.
    #[test]
    fn edits_a_grid(rt: HostRuntime) {
        let mut row = [5u32, 6, 7, 8, 9];
        let mut grid = Grid::take_up(2, 2, &mut row);
        assert!(rt; grid.edit(1, 0, Some(65535)));
        assert!(rt; grid.edit(0, 1, None));
        assert!(rt; !grid.edit(2, 0, Some(1)));
        assert!(rt; !grid.edit(0, 2, None));
        assert_eq!(rt; row, [5, LOST, 65535, 8, 9]);
    }
}
