// What a stripe is made of: there is exactly one for each file, stripes are linear, and one symbol of the
// file reaches few cells. Each function computes nothing: its contract is a theorem, for every field that
// keeps the laws and every code.
#![tactic(auto)]

ghost use Rattle.code.specs.Stripe.{OneStripe};
ghost use Rattle.theorems.specs.Change.{ChangeDiffers, ChangeReaches};
ghost use Rattle.theorems.specs.Linear.{Linear, WeightedSum};

/// Each file has exactly one stripe.
pub fn one_stripe()
    ensures { OneStripe }
{}

/// Sums, differences and multiples of stripes are the stripes of the sums, differences and multiples of
/// their files.
pub fn linear()
    ensures { Linear }
{}

/// Each cell of a stripe is a sum over the file's symbols, each times its place's factor in that cell.
pub fn weighted_sum()
    ensures { WeightedSum }
{}

/// A file that is 0 but for one symbol has a stripe that is 0 outside (r + 1)·(a + 1) cells.
pub fn change_reaches()
    ensures { ChangeReaches }
{}

/// These (r + 1)·(a + 1) cells are all different.
pub fn change_differs()
    ensures { ChangeDiffers }
{}
