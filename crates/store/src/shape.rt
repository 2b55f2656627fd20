//! How many nodes and columns a store has.
ghost use Rattle.std.specs.Prelude.{◌≡◌, ◌*◌, ◌≤◌, ◌&&◌, nat_lt};
ghost use Rattle.store.specs.Sizes.{counted_columns, counted_nodes, whole_nodes};

// The most nodes and the most columns that a store is made with. They are a code's too, and stand here again
// because this crate stands on no other.
const MOST_NODES: usize = 64;

const MOST_COLUMNS: usize = 11;

/// The nodes and the columns of a store: at most 64 nodes and 11 columns, and with no columns no nodes.
#[derive(Clone, Copy, Debug, PartialEq, Eq)]
pub struct Shape {
    /// how many nodes, at most 64
    pub nodes: usize,
    /// how many columns, at most 11
    pub columns: usize,
    ghost nodes_as_counted: { nodes ≡ counted_nodes nodes columns },
    ghost columns_as_counted: { columns ≡ counted_columns columns },
}

/// The columns as a store counts them: above 11 they count as 11.
pub fn count_columns(columns: usize) -> usize
    ensures { result ≡ counted_columns columns }
{
    columns.min(MOST_COLUMNS)
}

/// The nodes as a store counts them: above 64 they count as 64, and with no columns there are none.
pub fn count_nodes(nodes: usize, columns: usize) -> usize
    ensures { result ≡ counted_nodes nodes columns }
{
    if columns == 0 {
        0
    } else {
        nodes.min(MOST_NODES)
    }
}

impl Shape {
    /// The nodes and the columns as a store counts them.
    pub fn counted(nodes: usize, columns: usize) -> Shape
        ensures nodes { result.nodes ≡ counted_nodes nodes columns }
        ensures columns { result.columns ≡ counted_columns columns }
    {
        Shape {
            nodes: count_nodes(nodes, columns),
            columns: count_columns(columns),
        }
    }

    // The counted nodes that fit whole into memory for `room` numbers, and the counted columns.
    pub(crate) fn fitting(nodes: usize, columns: usize, room: usize) -> Shape
        ensures nodes { result.nodes ≡ whole_nodes nodes columns room }
        ensures columns { result.columns ≡ counted_columns columns }
        ensures fits { result.nodes * result.columns ≤ room }
    {
        let Shape { nodes, columns, .. } = Shape::counted(nodes, columns);
        // an early return, so that what is left divides by columns above 0
        if columns == 0 {
            return Shape { nodes, columns };
        }
        Shape {
            nodes: nodes.min(room / columns),
            columns,
        }
    }

    /// Whether the cell of node j, column c is inside.
    pub fn has(&self, j: usize, c: usize) -> bool
        ensures { result ≡ (nat_lt j self.now.nodes && nat_lt c self.now.columns) }
    {
        j < self.nodes && c < self.columns
    }
}
