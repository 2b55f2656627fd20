// A system of linear equations in lent memory, and how it takes up one more equation in reduced form.
ghost use Rattle.std.specs.Prelude.{◌≡◌, ℕ, ◌+◌, ◌*◌, ◌<◌, ◌≤◌, length, ◌≢◌, slice_index};
ghost use Rattle.std.specs.Bool.{MatchBool};
ghost use Rattle.solve.specs.Systems.{entry, FirstFactor};

use crate::numbers::{inverse, minus, times};
use crate::rows::{next_usable, put_row, subtract_row};
use code::{MOST_SYMBOLS, Refusal};
use field::Field;

// n equations in lent memory, one after the other: the n factors of each, and then its right side. That the form is
// reduced, and which symbols are known, stands in the clauses and not here: while an equation goes in it does not hold.
// The marks of the known symbols, in a fixed array since nothing allocates, lie beside the equations: as a field, each
// method that writes would have to promise that they stay. That n and the memory stay is two equalities, which each
// caller reads by name. A row to be taken up is lent by the caller and changes as symbols are taken out of it, so that
// its length and the bound of its numbers are clauses, too.
#[derive(Drop)]
pub(crate) struct Equations<'w> {
    pub(crate) numbers: &'w mut [u32],
    pub(crate) n: usize,
    ghost small: { n < 505 },
    ghost square: { length numbers.now ≡ n * (n + 1) },
}

impl<'w> Equations<'w> {
    ghost use Rattle.std.specs.Prelude.{◌≡◌, ℕ, ◌+◌, ◌*◌, ◌<◌, ◌≤◌, length, Some, None, ◌≢◌, set, slice_index};
    ghost use Rattle.std.specs.Bool.{MatchBool};
    ghost use Rattle.solve.specs.Systems.{entry, Reduced, KnownRows, Remainder, Installed, Absorbed};
    ghost use Rattle.solve.specs.Decisions.{Lone};

    // Takes the numbers of the memory as n equations.
    pub(crate) fn new(numbers: &'w mut [u32], n: usize) -> Equations<'w>
        requires small { n < 505 }
        requires square { length numbers.old ≡ n * (n + 1) }
        ensures size { result.n ≡ n }
        ensures numbers { result.numbers.now ≡ numbers.old }
        ensures memory { result.numbers.ghost_name ≡ numbers.entry.ghost_name }
    {
        Equations { numbers, n }
    }

    // Makes all equations empty.
    pub(crate) fn clear(&mut self)
        ensures size { self.new.n ≡ self.old.n }
        ensures memory { self.new.numbers.ghost_name ≡ self.old.numbers.ghost_name }
        ensures zeros { (i : ℕ) → slice_index self.new.numbers.now i ≡ 0 }
    {
        self.numbers.fill(0);
    }

    // Enters into the equation of symbol p that the symbol is the value.
    pub(crate) fn enter(&mut self, p: usize, value: u16)
        requires { p < self.old.n }
        ensures size { self.new.n ≡ self.old.n }
        ensures memory { self.new.numbers.ghost_name ≡ self.old.numbers.ghost_name }
        ensures entered { self.new.numbers.now
            ≡ set (set self.old.numbers.now (p * (self.old.n + 1) + p) 1) (p * (self.old.n + 1) + self.old.n) value }
    {
        let a = p * (self.n + 1);
        self.numbers[a + p] = 1;
        self.numbers[a + self.n] = u32::from(value);
    }

    // The right side of the equation of symbol p, if it has no other factor than that at p.
    pub(crate) fn lone(&self, p: usize) -> Option<u32>
        requires { p < self.now.n }
        ensures { Lone self.now.n (entry self.now.n self.now.numbers.now) p result }
    {
        let a = p * (self.n + 1);
        if self.numbers[a + p] != 0 && only_at(&self.numbers[a..a + self.n], p) {
            Some(self.numbers[a + self.n])
        } else {
            None
        }
    }

    // Whether every symbol's equation has no other factor than its own.
    pub(crate) fn all_lone(&self) -> bool
        ensures { MatchBool result
            ((p : ℕ) → p < self.now.n → Lone self.now.n (entry self.now.n self.now.numbers.now) p
            (Some (entry self.now.n self.now.numbers.now p self.now.n)))
            ((p : ℕ) × (p < self.now.n) × Lone self.now.n (entry self.now.n self.now.numbers.now) p None) }
    {
        (0..self.n).all(|p| self.lone(p).is_some())
    }

    // Moves the right sides of the equations to the first n numbers.
    #[tactic(auto, using(encode::proofs::Windows::row_end))]
    pub(crate) fn move_right_sides(&mut self)
        ensures size { self.new.n ≡ self.old.n }
        ensures memory { self.new.numbers.ghost_name ≡ self.old.numbers.ghost_name }
        ensures moved { (p : ℕ) → p < self.old.n
            → slice_index self.new.numbers.now p ≡ entry self.old.n self.old.numbers.now p self.old.n }
    {
        let n = self.n;
        let numbers = &mut *self.numbers;
        // by index: what is read stands n + 1 apart, in the slice that is written
        for p in 0..n {
            numbers[p] = numbers[p * (n + 1) + n];
        }
    }

    // Takes symbol c out of every equation but the one that is kept for it, whose factor there is 1.
    #[tactic(auto, using(encode::proofs::Windows::row_end))]
    fn eliminate<F: Field>(&mut self, c: usize)
        requires symbol { c < self.old.n }
        requires below { (p j : ℕ) → p < self.old.n → j < self.old.n + 1
            → entry self.old.n self.old.numbers.now p j < F.ops.q }
        ensures size { self.new.n ≡ self.old.n }
        ensures memory { self.new.numbers.ghost_name ≡ self.old.numbers.ghost_name }
        ensures kept { (j : ℕ) → j < self.old.n + 1
            → entry self.old.n self.new.numbers.now c j ≡ entry self.old.n self.old.numbers.now c j }
        ensures others { (p j : ℕ) → p < self.old.n → j < self.old.n + 1 → (p ≢ c)
            → entry self.old.n self.new.numbers.now p j
            ≡ F.ops.sub (entry self.old.n self.old.numbers.now p j)
            (F.ops.mul (entry self.old.n self.old.numbers.now p c) (entry self.old.n self.old.numbers.now c j)) }
    {
        let width = self.n + 1;
        let numbers = &mut *self.numbers;
        let mut from = 0;
        // no filter over all equations: they change while it would run
        while let Some(s) = next_usable(numbers, width, c, from) {
            if s != c {
                let by = numbers[s * width + c];
                subtract_row::<F>(numbers, width, s, c, by);
            }
            from = s + 1;
        }
    }

    // Makes the row, divided by its factor at c, the equation of symbol c.
    fn install<F: Field>(&mut self, c: usize, row: &[u32])
        requires symbol { c < self.old.n }
        requires row { length row.now ≡ self.old.n + 1 }
        requires below { (p j : ℕ) → p < self.old.n → j < self.old.n + 1
            → entry self.old.n self.old.numbers.now p j < F.ops.q }
        ensures size { self.new.n ≡ self.old.n }
        ensures memory { self.new.numbers.ghost_name ≡ self.old.numbers.ghost_name }
        ensures installed { Installed F.ops self.old.n c (λ j. slice_index row.now j)
            (entry self.old.n self.old.numbers.now) (entry self.old.n self.new.numbers.now) }
    {
        put_row::<F>(self.numbers, c, row, inverse::<F>(row[c]));
        self.eliminate::<F>(c);
    }

    // Takes symbol p out of a row by the equation of p. Where p is known, only the right side has more to change.
    #[tactic(auto, using(encode::proofs::Windows::row_end))]
    fn take_out<F: Field>(&self, known: &[bool; MOST_SYMBOLS], p: usize, row: &mut [u32])
        requires symbol { p < self.now.n }
        requires row { length row.old ≡ self.now.n + 1 }
        requires marked { KnownRows self.now.n known.now (entry self.now.n self.now.numbers.now) }
        requires below { (c : ℕ) → c < self.now.n + 1 → slice_index row.old c < F.ops.q }
        ensures { (c : ℕ) → c < self.now.n + 1
            → slice_index row.new c ≡ F.ops.sub (slice_index row.old c)
            (F.ops.mul (slice_index row.old p) (entry self.now.n self.now.numbers.now p c)) }
    {
        let a = p * (self.n + 1);
        let by = row[p];
        if known[p] {
            row[self.n] = minus::<F>(row[self.n], times::<F>(by, self.numbers[a + self.n]));
            row[p] = 0;
        } else {
            subtract_from::<F>(row, &self.numbers[a..a + (self.n + 1)], by);
        }
    }

    // Takes every symbol that has an equation out of a row.
    #[tactic(auto, using(encode::proofs::Windows::row_end))]
    fn reduce<F: Field>(&self, known: &[bool; MOST_SYMBOLS], row: &mut [u32])
        requires row { length row.old ≡ self.now.n + 1 }
        requires marked { KnownRows self.now.n known.now (entry self.now.n self.now.numbers.now) }
        requires reduced { Reduced F.ops self.now.n (entry self.now.n self.now.numbers.now) }
        requires below { (c : ℕ) → c < self.now.n + 1 → slice_index row.old c < F.ops.q }
        ensures { Remainder F.ops self.now.n (entry self.now.n self.now.numbers.now)
            (λ c. slice_index row.old c) (λ c. slice_index row.new c) }
    {
        // by index: p is a symbol, with a number in the row and an equation of its own
        for p in 0..self.n {
            if self.numbers[p * (self.n + 1) + p] != 0 && row[p] != 0 {
                self.take_out::<F>(known, p, row);
            }
        }
    }

    // Takes one more equation up into the system, unless it contradicts the others.
    pub(crate) fn absorb<F: Field>(
        &mut self,
        known: &[bool; MOST_SYMBOLS],
        row: &mut [u32],
    ) -> Result<(), Refusal>
        requires row { length row.old ≡ self.old.n + 1 }
        requires marked { KnownRows self.old.n known.now (entry self.old.n self.old.numbers.now) }
        requires reduced { Reduced F.ops self.old.n (entry self.old.n self.old.numbers.now) }
        requires below { (c : ℕ) → c < self.old.n + 1 → slice_index row.old c < F.ops.q }
        ensures size { self.new.n ≡ self.old.n }
        ensures memory { self.new.numbers.ghost_name ≡ self.old.numbers.ghost_name }
        ensures absorbed { Absorbed F.ops self.old.n known.now (λ c. slice_index row.old c)
            (entry self.old.n self.old.numbers.now) result (entry self.old.n self.new.numbers.now) }
    {
        self.reduce::<F>(known, row);
        match first_factor(row, self.n) {
            None if row[self.n] == 0 => Ok(()),
            None => Err(Refusal::Contradiction),
            Some(c) => {
                self.install::<F>(c, row);
                Ok(())
            }
        }
    }
}

// Whether all factors but the one at p are 0.
fn only_at(factors: &[u32], p: usize) -> bool
    ensures { MatchBool result ((c : ℕ) → c < length factors.now → c ≢ p → slice_index factors.now c ≡ 0)
        ((c : ℕ) × (c < length factors.now) × (c ≢ p) × (slice_index factors.now c ≢ 0)) }
{
    factors.iter().enumerate().all(|(c, x)| c == p || *x == 0)
}

// Takes a multiple of one row from another.
fn subtract_from<F: Field>(row: &mut [u32], other: &[u32], by: u32)
    requires { length row.old ≡ length other.now }
    ensures { (c : ℕ) → c < length row.old
        → slice_index row.new c ≡ F.ops.sub (slice_index row.old c) (F.ops.mul by (slice_index other.now c)) }
{
    // no zip of the two rows: the proof did not close, since nothing is known of what a loop over it writes
    for (c, x) in row.iter_mut().enumerate() {
        *x = minus::<F>(*x, times::<F>(by, other[c]));
    }
}

// The first symbol whose factor in a row is not 0.
fn first_factor(row: &[u32], n: usize) -> Option<usize>
    requires { n ≤ length row.now }
    ensures { FirstFactor n row.now result }
{
    row[..n].iter().position(|x| *x != 0)
}
