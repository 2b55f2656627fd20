// The weighted sums of the groups, whatever memory the data columns stand in.
ghost use Rattle.std.specs.Prelude.{◌≡◌, ℕ, ◌<◌, ◌≤◌};
ghost use Rattle.code.specs.Positions.{behind};
ghost use Rattle.code.specs.Stripe.{Symbols};
ghost use Rattle.encode.specs.Rules.{group_sum};
ghost use Rattle.encode.specs.Scratch.{GroupWeights};

use crate::points::Points;
use crate::sums::powers;
use code::{Code, MOST_CODED_COLUMNS, MOST_DATA_COLUMNS};
use field::Field;
use std::marker::PhantomData;

/// What the groups weigh their symbols by: number t of row i is α^(i·t), for each coded column i and data column t
/// that a code can have.
#[derive(Drop)]
pub(crate) struct Weights<F: Field> {
    rows: [[u16; MOST_DATA_COLUMNS]; MOST_CODED_COLUMNS],
    field: PhantomData<F>,
    ghost are: { GroupWeights F.ops rows },
}

impl<F: Field> Weights<F> {
    /// Row i is filled with the powers of α^i.
    pub(crate) fn new(points: &Points<F>) -> Self {
        let mut rows = [[0; MOST_DATA_COLUMNS]; MOST_CODED_COLUMNS];
        // By index: no proof covers a row of `iter_mut` that is handed on.
        for i in 0..MOST_CODED_COLUMNS {
            powers::<F>(points.powers[i], &mut rows[i]);
        }
        Weights {
            rows,
            field: PhantomData,
        }
    }
}

/// ⟨v − s⟩, for a node v and a shift s below n. `Code::behind` takes any two numbers, and tests each whether it is below n;
/// the sums below have a shift for each term, and there both are.
pub(crate) fn back(n: usize, v: usize, s: usize) -> usize
    requires node { v < n }
    requires shift { s < n }
    requires bound { n ≤ 64 }
    ensures { result ≡ behind n v s }
{
    if s <= v { v - s } else { v + n - s }
}

/// The sum over the data columns t of α^(i·t) · x(⟨j − t − 1⟩, t), where `symbol` answers what x is at a node and a
/// data column. By the group rule it is the symbol of node ⟨j + i⟩, column m + i.
pub(crate) fn group_sum<F: Field, X: Fn(usize, usize) -> u16>(
    code: &Code,
    weights: &Weights<F>,
    symbol: X,
    j: usize,
    i: usize,
) -> u16
    requires symbols { (v t : ℕ) → v < code.now.n → t < code.now.m → X.pre symbol v t }
    requires node { j < code.now.n }
    requires column { i < code.now.a }
    ensures { (x : Symbols) → ((v t r : ℕ) → v < code.now.n → t < code.now.m → X.post symbol v t r → r ≡ x v t)
        → result ≡ group_sum F.ops code.now x j i }
{
    let n = code.nodes();
    let mut sum = 0;
    // A loop, since the closure of a fold would have to repeat what these calls require.
    for t in 0..code.data_columns() {
        let v = back(n, j, t + 1);
        sum = F::sum(sum, F::product(weights.rows[i][t], symbol(v, t)));
    }
    sum
}
