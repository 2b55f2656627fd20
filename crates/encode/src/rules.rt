// The rules of a stripe, tested on memory.
ghost use Rattle.std.specs.Prelude.{◌≡◌, ℕ, ◌+◌, ◌<◌, ◌≤◌, length, slice_index, Decides, IfOk, IfErr};
ghost use Rattle.code.specs.declared.refusal.Refusal.TheVariants.{Shape};
ghost use Rattle.code.specs.Positions.{ahead};
ghost use Rattle.code.specs.Stripe.{ColumnRule, GroupRule, width};
ghost use Rattle.encode.specs.Encoding.{cell_count, in_memory};
ghost use Rattle.encode.specs.Rules.{ColumnSums, GroupSums, KeepsRules, group_sum};
ghost use Rattle.encode.specs.Systems.{column_sum};

use crate::cells::cell_count;
use crate::columns::Column;
use crate::groups::{Weights, group_sum};
use crate::points::Points;
use crate::sums::{all_symbols, column_sum};
use code::{Code, MOST_NODES, Refusal};
use field::Field;

/// A memory with room for the cells of a code: cell (j, c) is number j·(m + a) + c. That a node is one of the code's is
/// asked for by its methods: a type for such a node would be made and opened again at each call.
#[derive(Clone, Copy)]
pub(crate) struct Cells<'a> {
    code: &'a Code,
    numbers: &'a [u16],
    ghost room: { cell_count code.now ≤ length numbers.now },
}

// Whether the first r column sums are all 0.
fn sums_vanish<F: Field>(r: usize, column: &[u16]) -> bool
    ensures { Decides result ((i : ℕ) → i < r → column_sum F.ops i column.now ≡ 0) }
{
    (0..r).all(|i| column_sum::<F>(i, column) == 0)
}

impl<'a> Cells<'a> {
    /// The cells of the code in this memory; refusal 2 if it is shorter.
    pub(crate) fn new(code: &'a Code, numbers: &'a [u16]) -> Result<Cells<'a>, Refusal>
        ensures cells { IfOk result (λ cells. (cells.code.now ≡ code.now) × (cells.numbers.now ≡ numbers.now)) }
        ensures shape { IfErr result (λ e. (e ≡ Shape) × (length numbers.now < cell_count code.now)) }
    {
        if numbers.len() < cell_count(code) {
            return Err(Refusal::Shape);
        }
        Ok(Cells { code, numbers })
    }

    // The number of cell (j, c).
    fn at(&self, j: usize, c: usize) -> u16
        requires node { j < self.now.code.now.n }
        requires column { c < width self.now.code.now }
        ensures { result ≡ in_memory self.now.code.now self.now.numbers.now j c }
    {
        self.numbers[j * self.code.columns() + c]
    }

    // Column t, one number for each node.
    fn column(&self, t: usize) -> Column
        requires { t < width self.now.code.now }
        ensures { (j : ℕ) → j < self.now.code.now.n
            → slice_index result j ≡ in_memory self.now.code.now self.now.numbers.now j t }
    {
        let mut column = [0; MOST_NODES];
        let places = &mut column[..self.code.nodes()];
        for (j, x) in places.iter_mut().enumerate() {
            *x = self.at(j, t);
        }
        column
    }

    // Whether data column t keeps the column rule.
    fn keeps_column<F: Field>(&self, t: usize) -> bool
        requires { t < self.now.code.now.m }
        ensures { Decides result (ColumnSums F.ops self.now.code.now
            (in_memory self.now.code.now self.now.numbers.now) t) }
    {
        let column = self.column(t);
        sums_vanish::<F>(self.code.parity_nodes(), &column[..self.code.nodes()])
    }

    // Whether the cells keep the column rule.
    fn keeps_columns<F: Field>(&self) -> bool
        ensures { Decides result (ColumnRule F.ops self.now.code.now
            (in_memory self.now.code.now self.now.numbers.now)) }
    {
        (0..self.code.data_columns()).all(|t| self.keeps_column::<F>(t))
    }

    // Whether the symbol of coded column i in the group of node j is what the group rule says.
    fn keeps_coded<F: Field>(&self, weights: &Weights<F>, j: usize, i: usize) -> bool
        requires node { j < self.now.code.now.n }
        requires column { i < self.now.code.now.a }
        ensures { Decides result (in_memory self.now.code.now self.now.numbers.now (ahead self.now.code.now.n j i)
            (self.now.code.now.m + i)
            ≡ group_sum F.ops self.now.code.now (in_memory self.now.code.now self.now.numbers.now) j i) }
    {
        let symbol = self.at(self.code.ahead(j, i), self.code.data_columns() + i);
        symbol == group_sum(self.code, weights, |v, t| self.at(v, t), j, i)
    }

    // Whether the coded symbols of the group of node j are what the group rule says.
    fn keeps_group<F: Field>(&self, weights: &Weights<F>, j: usize) -> bool
        requires { j < self.now.code.now.n }
        ensures { Decides result (GroupSums F.ops self.now.code.now
            (in_memory self.now.code.now self.now.numbers.now) j) }
    {
        (0..self.code.coded_columns()).all(|i| self.keeps_coded(weights, j, i))
    }

    // Whether the cells keep the group rule.
    fn keeps_groups<F: Field>(&self, weights: &Weights<F>) -> bool
        ensures { Decides result (GroupRule F.ops self.now.code.now
            (in_memory self.now.code.now self.now.numbers.now)) }
    {
        (0..self.code.nodes()).all(|j| self.keeps_group(weights, j))
    }

    // Whether the numbers of all cells are symbols of the field.
    fn all_symbols<F: Field>(&self) -> bool
        ensures { Decides result ((j c : ℕ) → j < self.now.code.now.n → c < width self.now.code.now
            → in_memory self.now.code.now self.now.numbers.now j c < F.ops.q) }
    {
        all_symbols::<F>(&self.numbers[..cell_count(self.code)])
    }

    /// Whether the cells hold symbols of the field that keep the column rule and the group rule.
    pub(crate) fn keeps_rules<F: Field>(&self) -> bool
        ensures { Decides result (KeepsRules F.ops self.now.code.now
            (in_memory self.now.code.now self.now.numbers.now)) }
    {
        self.all_symbols::<F>()
            && self.keeps_columns::<F>()
            && self.keeps_groups(&Weights::<F>::new(&Points::new()))
    }
}
