// A tally of compared values.
ghost use Rattle.std.specs.Prelude.{◌≡◌, ◌+◌, ◌-◌, ◌^◌, min, Some, if◌then◌else◌};
ghost use Rattle.trial.specs.Tallies.{tally_text};

use std::fmt;

/// How many values were compared, and how many of them differed.
#[derive(Clone, Copy, Debug, PartialEq, Eq)]
pub struct Tally {
    compared: u32,
    differing: u32,
}

impl Tally {
    /// Nothing compared so far.
    pub fn new() -> Self
        ensures compared { result.compared ≡ 0 }
        ensures differing { result.differing ≡ 0 }
    {
        Tally {
            compared: 0,
            differing: 0,
        }
    }

    /// Counts the comparison of two values. Neither count goes past 4,294,967,295.
    pub fn compare<T: PartialEq + Drop>(&mut self, value: T, expected: T)
        ensures compared { self.new.compared ≡ min (self.old.compared + 1) (2 ^ 32 - 1) }
        ensures differing { self.new.differing
            ≡ (if T.eq value expected then self.old.differing else min (self.old.differing + 1) (2 ^ 32 - 1)) }
    {
        self.compared = self.compared.saturating_add(1);
        if value != expected {
            self.differing = self.differing.saturating_add(1);
        }
    }
}

impl fmt::Display for Tally {
    ghost output = { λ tally. Some (tally_text tally.compared tally.differing) };

    fn fmt<W: fmt::Write>(&self, f: &mut fmt::Formatter<W>) -> fmt::Result {
        write!(f, "{} compared, {} differ", self.compared, self.differing)
    }
}
