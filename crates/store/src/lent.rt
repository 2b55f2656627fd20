//! The record of a grid.
ghost use Rattle.std.specs.Prelude.{◌*◌, ◌≤◌, length};

use crate::shape::Shape;

// No Debug: it would print the whole row that is lent.

/// A store over a row of numbers that its owner lends: cell (j, c) is the number at j · columns + c, and
/// a number above 65,535 is a lost cell. All cells lie within the row.
#[derive(Drop)]
pub struct Grid<'a> {
    pub(crate) cells: &'a mut [u32],
    pub(crate) shape: Shape,
    ghost room: { shape.nodes * shape.columns ≤ length cells.now },
}
