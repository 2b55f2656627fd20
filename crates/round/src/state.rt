// The three states of a round, each a type of its own that moves: a state that was used is gone, and
// only the state that it became can be used next. The field belongs to the type, so that one
// field serves a whole round. No state is Clone: a copy could be used twice. None is Debug, nor what holds one:
// a derived one asks Debug of the field, a type that stands for operations and has no values to print.
//
// Each state has the code, the node and the field as its own: one struct that holds the three would save
// two lines a state, and every clause that speaks of a round's code would name that struct as well.
ghost use Rattle.std.specs.Prelude.{◌≡◌, ◌+◌, ◌<◌};

use code::{Code, Refusal};
use std::marker::PhantomData;

/// A round that wants a symbol.
#[derive(Drop)]
pub struct Wanting<F> {
    pub(crate) code: Code,
    // the node that is rebuilt
    pub(crate) node: usize,
    // the column that is rebuilt at present
    pub(crate) column: usize,
    // how many symbols were given for this column
    pub(crate) place: usize,
    // the symbol that these make so far; `None` before the first
    pub(crate) made: Option<u16>,
    // the factor of the next symbol in a coded column
    pub(crate) weight: u16,
    pub(crate) field: PhantomData<F>,
    ghost known: { node < code.n },
    ghost inside: { column < code.m + code.a },
    ghost unfinished: { place < code.m },
}

/// A round that has finished the symbol of a column, which is to be taken.
#[derive(Drop)]
pub struct Holding<F> {
    pub(crate) code: Code,
    pub(crate) node: usize,
    pub(crate) column: usize,
    // the finished symbol
    pub(crate) made: u16,
    pub(crate) field: PhantomData<F>,
    ghost known: { node < code.n },
    ghost inside: { column < code.m + code.a },
}

/// A round whose symbols are all taken.
#[derive(Drop)]
pub struct Over<F> {
    pub(crate) code: Code,
    pub(crate) node: usize,
    pub(crate) field: PhantomData<F>,
}

// Neither this nor Taken is a Result or a ControlFlow: no case is an error or an end, and each variant
// has the name of the state that follows.

/// What a round becomes that was given a symbol.
#[derive(Drop)]
pub enum Given<F> {
    /// it wants another for the same column
    Wanting(Wanting<F>),
    /// the symbol of the column is finished
    Holding(Holding<F>),
}

/// A symbol that was declined: why, and the round as it was.
#[derive(Drop)]
pub struct Declined<F> {
    /// 6, the only one: the number is no symbol of the field
    pub refusal: Refusal,
    /// the round as it was
    pub round: Wanting<F>,
}

/// The refusal alone, as `?` hands it on; the round is dropped.
impl<F> From<Declined<F>> for Refusal {
    ghost from_gives = { λ declined refusal. refusal ≡ declined.refusal };

    fn from(declined: Declined<F>) -> Refusal {
        declined.refusal
    }
}

/// What a round becomes whose finished symbol was taken.
#[derive(Drop)]
pub enum Taken<F> {
    /// it wants the first symbol for the next column
    Wanting(Wanting<F>),
    /// that was the last column
    Over(Over<F>),
}
