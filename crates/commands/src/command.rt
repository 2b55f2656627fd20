//! The commands of a card, and the faults of one that is none.

// Two variants and no place with an `Option<u16>`: the format has a letter and a length for each of the two
// commands, which the clauses and the callers match on. Of `None` they would have to say that it is L.

/// One command of a card, on the cell of a node and a column.
#[derive(Clone, Copy, Debug, PartialEq, Eq)]
pub enum Command {
    /// the cell holds the symbol
    Write {
        /// the cell's node
        node: u8,
        /// the cell's column
        column: u8,
        /// what the cell holds: any number of two bytes, W writes it with the high byte first
        symbol: u16,
    },
    /// the cell is lost
    Lose {
        /// the cell's node
        node: u8,
        /// the cell's column
        column: u8,
    },
}

// Each kind keeps the place: a struct of a place and a kind would be two types, and no match plainer.

/// Why the bytes from a place on do not begin with a command. `at` is the place of the first byte.
#[derive(Clone, Copy, Debug, PartialEq, Eq)]
pub enum CardFault {
    /// 21: the letter is neither W nor L
    Letter {
        /// the place of the letter
        at: usize,
    },
    /// 22: the command is cut short
    Short {
        /// the place of the command's first byte, or of the end where there are no bytes
        at: usize,
    },
    /// 23: the command's cell is outside
    Outside {
        /// the place of the command's first byte
        at: usize,
    },
}

/// The commands that bytes begin with, on whatever cells: the walk ends at the first byte that begins no
/// whole command.
#[derive(Clone, Copy, Debug)]
pub struct Commands<'a> {
    pub(crate) bytes: &'a [u8],
}
