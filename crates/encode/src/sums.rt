// Symbols, powers and sums over slices.
ghost use Rattle.std.specs.Prelude.{◌≡◌, ℕ, ◌<◌, ◌≤◌, true, false, length, slice_index, fold, zip};
ghost use Rattle.field.specs.Laws.{power};
ghost use Rattle.encode.specs.Systems.{AllBelow, column_sum};

use field::Field;

/// Whether every number of the slice is a symbol of the field.
pub(crate) fn all_symbols<F: Field>(xs: &[u16]) -> bool
    ensures yes { result ≡ true → AllBelow F.ops.q xs.now }
    ensures not { result ≡ false → (p : ℕ) × (p < length xs.now) × (F.ops.q ≤ slice_index xs.now p) }
{
    xs.iter().all(|x| u32::from(*x) < F::SIZE)
}

/// Fills the slice with the powers of a symbol: number j is base^j.
pub(crate) fn powers<F: Field>(base: u16, out: &mut [u16])
    ensures { (j : ℕ) → j < length out.new → slice_index out.new j ≡ power F.ops base j }
{
    let mut p = 1;
    for x in out.iter_mut() {
        *x = p;
        p = F::product(base, p);
    }
}

/// The sum of weights[j] · column[j], over the places j of the shorter slice.
pub(crate) fn weighted_sum<F: Field>(weights: &[u16], column: &[u16]) -> u16
    ensures { result
        ≡ fold (λ (sum : ℕ) (at : ℕ × ℕ). F.ops.add sum (F.ops.mul at.0 at.1)) 0 (zip weights.now column.now) }
{
    weights
        .iter()
        .zip(column)
        .fold(0, |sum, (w, x)| F::sum(sum, F::product(*w, *x)))
}

/// The sum over the column's symbols of α^(i·j) · column[j], with j the symbol's place.
pub fn column_sum<F: Field>(i: usize, column: &[u16]) -> u16
    ensures { result ≡ column_sum F.ops i column.now }
{
    let step = field::power::<F>(F::GENERATOR, i);
    let mut weight = 1;
    let mut sum = 0;
    // A loop, since a fold would carry both the sum and the weight.
    for x in column.iter() {
        sum = F::sum(sum, F::product(weight, *x));
        weight = F::product(step, weight);
    }
    sum
}
