// Rows of numbers in work memory, and the steps that change one of them.
ghost use Rattle.std.specs.Prelude.{◌≡◌, ℕ, ◌+◌, ◌-◌, ◌*◌, ◌<◌, ◌≤◌, length, ◌≢◌, slice_index};
ghost use Rattle.solve.specs.Rows.{RowIs, Usable};

use crate::numbers::{minus, times};
use field::Field;

// Multiplies each number of a row.
fn scale<F: Field>(row: &mut [u32], by: u32)
    ensures { (c : ℕ) → c < length row.old → slice_index row.new c ≡ F.ops.mul by (slice_index row.old c) }
{
    for x in row.iter_mut() {
        *x = times::<F>(by, *x);
    }
}

// Puts a multiple of a row in place of row s of the memory. The rows of the memory have the length of this one.
pub(crate) fn put_row<F: Field>(work: &mut [u32], s: usize, row: &[u32], by: u32)
    requires { s * length row.now + length row.now ≤ length work.old }
    ensures { RowIs (length row.now) s (λ c. F.ops.mul by (slice_index row.now c)) work.old work.new }
{
    let a = s * row.len();
    let place = &mut work[a..a + row.len()];
    place.copy_from_slice(row);
    scale::<F>(place, by);
}

// Takes `by` times row p from row s.
pub(crate) fn subtract_row<F: Field>(work: &mut [u32], width: usize, s: usize, p: usize, by: u32)
    requires differ { s ≢ p }
    requires inside { s * width + width ≤ length work.old }
    requires other_inside { p * width + width ≤ length work.old }
    ensures { RowIs width s
        (λ c. F.ops.sub (slice_index work.old (s * width + c)) (F.ops.mul by (slice_index work.old (p * width + c))))
        work.old work.new }
{
    // Beside `subtract_from` of the system, which takes two slices: here both rows lie in the one slice, and either may
    // come first. So it goes by index, too.
    for c in 0..width {
        work[s * width + c] = minus::<F>(work[s * width + c], times::<F>(by, work[p * width + c]));
    }
}

// The next equation, from a given place on, whose factor at the symbol is not 0. There are width − 1 equations.
pub(crate) fn next_usable(work: &[u32], width: usize, symbol: usize, from: usize) -> Option<usize>
    requires symbol { symbol < width }
    requires front { length work.now ≡ (width - 1) * width }
    ensures { Usable width (width - 1) symbol from work.now result }
{
    (from..width - 1).find(|s| work[*s * width + symbol] != 0)
}
