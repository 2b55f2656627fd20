// What follows from the laws of a field, for every field that keeps them: products, powers, sums over an index, and
// Vandermonde systems. Each function computes nothing: its contract is the theorem, and a call of it gives the caller
// the theorem.
#![tactic(auto)]

ghost use Rattle.algebra.specs.Consequences.{ZeroProducts, NonzeroPowers, PowerLaws, PointsDiffer};
ghost use Rattle.algebra.specs.Consequences.{SumsByTerms, LinearSums, SwappedSums, SplitSums};
ghost use Rattle.algebra.specs.Vandermonde.{VandermondeUnique, VandermondeSolvable, VandermondeCompletes};

/// A product with 0 is 0, and a product of symbols is 0 only if a factor is.
pub fn zero_products()
    ensures { ZeroProducts }
{}

/// No power of a symbol other than 0 is 0, and the generator is not 0.
pub fn nonzero_powers()
    ensures { NonzeroPowers }
{}

/// Powers of sums and products of exponents.
pub fn power_laws()
    ensures { PowerLaws }
{}

/// The points α^0 to α^63 differ, and so do α^(2·0) to α^(2·63).
pub fn points_differ()
    ensures { PointsDiffer }
{}

/// Equal terms give equal sums, terms that are 0 give 0, and a sum with one term other than 0 is that term.
pub fn sums_by_terms()
    ensures { SumsByTerms }
{}

/// Sums of sums, of differences and of multiples.
pub fn linear_sums()
    ensures { LinearSums }
{}

/// A double sum is the same in either order.
pub fn swapped_sums()
    ensures { SwappedSums }
{}

/// A sum is that of its first terms and that of the others.
pub fn split_sums()
    ensures { SplitSums }
{}

/// A vector that is 0 outside at most d places, with d syndromes that are 0, is 0.
pub fn vandermonde_unique()
    ensures { VandermondeUnique }
{}

/// At d different places any d syndromes are reached.
pub fn vandermonde_solvable()
    ensures { VandermondeSolvable }
{}

/// Any k symbols are completed to n with n − k syndromes that are 0, in exactly one way.
pub fn vandermonde_completes()
    ensures { VandermondeCompletes }
{}
