// Linear equations over a field, and Gauss and Jordan's elimination of their unknowns.
ghost use Rattle.std.specs.Prelude.{◌≡◌, ◌≢◌, ℕ, ◌+◌, ◌*◌, ◌/◌, ◌<◌, ◌≤◌};
ghost use Rattle.std.specs.Prelude.{length, slice_index, IsTrue, MatchOption};
ghost use Rattle.std.specs.Bool.{MatchBool};
ghost use Rattle.trial.specs.Rows.{Alone, Consistent, Said, entry};

use field::Field;

/// Equations after the elimination of their unknowns, as far as they go.
#[derive(Debug, Drop)]
pub struct Solved<'a> {
    // For each equation the factors of the unknowns, and behind them the right side, where the caller lent them.
    numbers: &'a [u16],
    unknowns: usize,
    // How many of the first equations were taken for an unknown each. The code makes its factor 1 there and
    // 0 in all others, and leaves no factor in the equations behind these; no clause says so.
    rank: usize,
    // how many equations there are; a field, since the clauses name it
    count: usize,
    ghost few: { unknowns < 65536 },
    ghost whole: { count * (unknowns + 1) ≤ length numbers.now },
    ghost within: { rank * (unknowns + 1) ≤ length numbers.now },
}

/// Eliminates one unknown after another from equations that stand one behind another: of each the factors
/// of the unknowns, and behind them the right side. What comes out stands where they stood.
#[tactic(auto, using(crate::proofs::Places::rows_fit))]
pub fn eliminate<F: Field>(numbers: &mut [u16], unknowns: usize) -> Solved<'_>
    requires few { unknowns < 65536 }
    ensures unknowns { result.unknowns ≡ unknowns }
    ensures long { length result.numbers.now ≡ length numbers.old }
    ensures count { result.count ≡ length numbers.old / (unknowns + 1) }
    ensures rank { result.rank ≤ unknowns }
{
    let count = numbers.len() / (unknowns + 1);
    let rank = take_unknowns::<F>(numbers, unknowns);
    Solved {
        numbers,
        unknowns,
        rank,
        count,
    }
}

// Eliminates the unknowns from the equations where they stand. Returns how many were taken for an unknown.
fn take_unknowns<F: Field>(numbers: &mut [u16], unknowns: usize) -> usize
    requires { unknowns < 65536 }
    ensures long { length numbers.new ≡ length numbers.old }
    ensures rank { result ≤ unknowns }
    ensures within { result * (unknowns + 1) ≤ length numbers.old }
{
    let width = unknowns + 1;
    let mut rank = 0;
    for unknown in 0..unknowns {
        if bring_pivot(&mut numbers[rank * width..], unknown, width) {
            clear_unknown::<F>(numbers, rank * width, unknown, width);
            rank += 1;
        }
    }
    rank
}

// Exchanges the first row with the first that has a factor of the unknown, and tells whether there is one.
fn bring_pivot(rows: &mut [u16], unknown: usize, width: usize) -> bool
    requires { unknown < width }
    ensures long { length rows.new ≡ length rows.old }
    ensures within { IsTrue result → width ≤ length rows.old }
{
    if rows.len() < width {
        return false;
    }
    let (first, below) = rows.split_at_mut(width);
    if first[unknown] != 0 {
        return true;
    }
    let pivot = below
        .chunks_exact_mut(width)
        .find(|row| row.get(unknown).is_some_and(|factor| *factor != 0));
    let Some(row) = pivot else { return false };
    for (x, y) in first.iter_mut().zip(row) {
        std::mem::swap(x, y);
    }
    true
}

// Makes the factor of the unknown in the row that begins at `at` 1, and takes it out of all others.
fn clear_unknown<F: Field>(numbers: &mut [u16], at: usize, unknown: usize, width: usize)
    requires column { unknown < width }
    requires within { at + width ≤ length numbers.old }
    ensures { length numbers.new ≡ length numbers.old }
{
    let (above, rest) = numbers.split_at_mut(at);
    let (row, below) = rest.split_at_mut(width);
    let pivot = &mut row[unknown..];
    scale::<F>(pivot);
    for other in above
        .chunks_exact_mut(width)
        .chain(below.chunks_exact_mut(width))
    {
        if let Some(row) = other.get_mut(unknown..) {
            clear::<F>(row, pivot);
        }
    }
}

// Divides a row by its first number.
fn scale<F: Field>(row: &mut [u16]) {
    let Some(first) = row.first() else { return };
    let factor = F::inverse(*first);
    for x in row {
        *x = F::product(factor, *x);
    }
}

// Subtracts from a row the multiple of the pivot's row that makes its first number 0.
fn clear<F: Field>(row: &mut [u16], pivot: &[u16]) {
    let Some(first) = row.first() else { return };
    let factor = *first;
    if factor == 0 {
        return;
    }
    for (x, y) in row.iter_mut().zip(pivot) {
        *x = F::difference(*x, F::product(factor, *y));
    }
}

// Whether all numbers are 0, but for the one at p.
fn only_at(factors: &[u16], p: usize) -> bool
    ensures { MatchBool result ((c : ℕ) → c < length factors.now → c ≢ p → slice_index factors.now c ≡ 0)
        ((c : ℕ) × (c < length factors.now) × (c ≢ p) × (slice_index factors.now c ≢ 0)) }
{
    factors
        .iter()
        .enumerate()
        .all(|(c, factor)| c == p || *factor == 0)
}

impl Solved<'_> {
    /// What an unknown has to be, if the equations that were taken say so: the right side of one in which
    /// it alone has a factor.
    pub fn unknown(&self, p: usize) -> Option<u16>
        ensures { Said self.now.unknowns self.now.numbers.now self.now.rank p result }
    {
        let row = self.row_of(p)?;
        Some(self.numbers[row * (self.unknowns + 1) + self.unknowns])
    }

    // The first equation in which the unknown alone has a factor.
    fn row_of(&self, p: usize) -> Option<usize>
        ensures { MatchOption result
            ((row : ℕ) → row < self.now.rank → Alone self.now.unknowns self.now.numbers.now row p → ⊥)
            (λ row. (row < self.now.rank) × Alone self.now.unknowns self.now.numbers.now row p) }
    {
        (0..self.rank).find(|row| self.is_alone(*row, p))
    }

    // Whether the unknown alone has a factor in the row.
    fn is_alone(&self, row: usize, p: usize) -> bool
        requires { row < self.now.rank }
        ensures { MatchBool result (Alone self.now.unknowns self.now.numbers.now row p)
            (Alone self.now.unknowns self.now.numbers.now row p → ⊥) }
    {
        let at = row * (self.unknowns + 1);
        p < self.unknowns
            && self.numbers[at + p] != 0
            && only_at(&self.numbers[at..at + self.unknowns], p)
    }

    // The first equation behind those taken whose right side is not 0. The elimination leaves no factor there.
    pub(crate) fn contradiction(&self) -> Option<usize>
        ensures { MatchOption result
            (Consistent self.now.unknowns self.now.numbers.now self.now.rank self.now.count)
            (λ row. entry self.now.unknowns self.now.numbers.now row self.now.unknowns ≢ 0) }
    {
        (self.rank..self.count).find(|row| self.right_side(*row) != 0)
    }

    // The right side of an equation.
    fn right_side(&self, row: usize) -> u16
        requires { row < self.now.count }
        ensures { result ≡ entry self.now.unknowns self.now.numbers.now row self.now.unknowns }
    {
        self.numbers[row * (self.unknowns + 1) + self.unknowns]
    }
}
