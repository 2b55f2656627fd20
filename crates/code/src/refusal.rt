// The reasons for which a call is declined.
ghost use Rattle.std.specs.Prelude.{◌≡◌, Some};
ghost use Rattle.code.specs.Refusals.{number, place, text};

use std::error::Error;
use std::fmt;

/// Why a call was declined: one case for each number from 1 to 11. All calls on a stripe have this error
/// type, from the innermost to the outermost, so that `?` carries it. A call that is declined has changed
/// nothing, and returns the smallest number that holds.
#[derive(Clone, Copy, Debug, PartialEq, Eq)]
pub enum Refusal {
    /// 1: the bounds of the code record are broken
    Bounds,
    /// 2: the nodes of the store are not n, or its columns are not m + a
    Shape,
    /// 3: the file's length is not k·m
    Length,
    /// 4: the work memory is below k·m·(k·m + 1) numbers
    Work,
    /// 5: a node, a row or a column is outside
    Outside,
    /// 6: a symbol given to the call is q or more
    Symbol,
    /// 7: a cell that is present has a number of q or more
    Foreign { node: usize, column: usize },
    /// 8: a needed cell is lost
    Lost { node: usize, column: usize },
    /// 9: contradiction, no file fits
    Contradiction,
    /// 10: ambiguous, two fitting files differ
    Ambiguous,
    /// 11: the call needs more changes than the allowance promises
    Allowance,
}

impl Refusal {
    /// The refusal's number, 1 to 11.
    pub fn number(&self) -> u8
        ensures { result ≡ number self.now }
    {
        match self {
            Refusal::Bounds => 1,
            Refusal::Shape => 2,
            Refusal::Length => 3,
            Refusal::Work => 4,
            Refusal::Outside => 5,
            Refusal::Symbol => 6,
            Refusal::Foreign { .. } => 7,
            Refusal::Lost { .. } => 8,
            Refusal::Contradiction => 9,
            Refusal::Ambiguous => 10,
            Refusal::Allowance => 11,
        }
    }

    /// The node and the column that a refusal with number 7 or 8 names.
    pub fn place(&self) -> Option<(usize, usize)>
        ensures { result ≡ place self.now }
    {
        match self {
            Refusal::Foreign { node, column } | Refusal::Lost { node, column } => {
                Some((*node, *column))
            }
            _ => None,
        }
    }
}

impl fmt::Display for Refusal {
    ghost output = { λ e. Some (text e) };

    fn fmt<W: fmt::Write>(&self, f: &mut fmt::Formatter<W>) -> fmt::Result {
        match self {
            Refusal::Bounds => f.write_str("the four numbers are out of a code's bounds"),
            Refusal::Shape => f.write_str("the store has not the code's nodes and columns"),
            Refusal::Length => f.write_str("the file has not the code's length"),
            Refusal::Work => f.write_str("the work memory is too short"),
            Refusal::Outside => f.write_str("a node, a row or a column is outside"),
            Refusal::Symbol => f.write_str("a number given is no symbol of the field"),
            Refusal::Foreign { node, column } => {
                write!(
                    f,
                    "node {node}, column {column} holds no symbol of the field"
                )
            }
            Refusal::Lost { node, column } => write!(f, "node {node}, column {column} is lost"),
            Refusal::Contradiction => f.write_str("no file fits"),
            Refusal::Ambiguous => f.write_str("two fitting files differ"),
            Refusal::Allowance => f.write_str("the allowance is too small"),
        }
    }
}

impl Error for Refusal {}
