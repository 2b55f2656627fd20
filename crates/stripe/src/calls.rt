// The seven calls as values, so that a list of them can be spoken of.

/// One call on a stripe with its arguments. The work memory of a read and of a mend all is given by its
/// length.
#[derive(Clone, Copy, Debug, PartialEq, Eq)]
pub enum Call<'a> {
    /// puts a file into the store: each cell gets its symbol of the file's stripe
    Lay {
        /// the file's symbols, k·m of them, row by row
        file: &'a [u16],
    },
    /// tells one symbol of the file
    Read {
        /// the symbol's row, below k
        row: usize,
        /// the symbol's column, below m
        column: usize,
        /// how many numbers the work memory has
        work: usize,
    },
    /// sets one symbol of the file
    Change {
        /// the symbol's row, below k
        row: usize,
        /// the symbol's column, below m
        column: usize,
        /// the symbol that is set
        symbol: u16,
    },
    /// loses one cell
    LoseCell {
        /// the cell's node
        node: usize,
        /// the cell's column
        column: usize,
    },
    /// loses all cells of a node
    LoseNode {
        /// the node that is lost
        node: usize,
    },
    /// rebuilds all cells of a node by a round
    MendNode {
        /// the node that is rebuilt
        node: usize,
    },
    /// writes all lost cells
    MendAll {
        /// how many numbers the work memory has
        work: usize,
    },
}
