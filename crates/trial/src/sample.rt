// Files that look random.
ghost use Rattle.std.specs.Prelude.{◌≡◌, ℕ, ◌+◌, ◌%◌, ◌<◌, length, slice_index};
ghost use Rattle.trial.specs.Samples.{sample_state};

use field::Field;

/// Fills a file with symbols that look random, the same each time: a state begins with 1, each is the one
/// before times 75 and 74 more, modulo 65,537, and the symbols are the states modulo the size of the field.
pub fn fill_file<F: Field>(file: &mut [u16])
    ensures long { length file.new ≡ length file.old }
    ensures symbols { (p : ℕ) → p < length file.old → slice_index file.new p ≡ sample_state (p + 1) % F.ops.q }
{
    let mut state = 1u32;
    for symbol in file {
        state = (state * 75 + 74) % 65537;
        // below F::SIZE, at most 257, so the cast loses nothing
        *symbol = (state % F::SIZE) as u16;
    }
}
