// Vandermonde systems, solved in place.
ghost use Rattle.std.specs.Prelude.{◌≡◌, ℕ, ◌+◌, ◌<◌, length, slice_index};
ghost use Rattle.algebra.specs.Sums.{sum};
ghost use Rattle.encode.specs.Systems.{AllBelow, AllDiffer, Reaches};

use field::Field;

// Targets for the points without the first one, z: each target but the first loses z times the one before it.
// By index, since each step reads two places of the slice that it writes.
fn reduce<F: Field>(z: u16, targets: &mut [u16])
    ensures first { slice_index targets.new 0 ≡ slice_index targets.old 0 }
    ensures rest { (i : ℕ) → i + 1 < length targets.old
        → slice_index targets.new (i + 1)
        ≡ F.ops.sub (slice_index targets.old (i + 1)) (F.ops.mul z (slice_index targets.old i)) }
{
    for i in (1..targets.len()).rev() {
        targets[i] = F::difference(targets[i], F::product(z, targets[i - 1]));
    }
}

// From a solution for the points without the first one: each of its symbols is divided by the difference of its
// point and the first, and what they sum up to is taken from the first target. By index, since after a zip over
// `iter_mut` a proof knows the length of the targets alone.
fn lift<F: Field>(points: &[u16], targets: &mut [u16])
    requires long { length points.now ≡ length targets.old }
    requires some { 0 < length targets.old }
    requires target { slice_index targets.old 0 < F.ops.q }
    ensures rest { (v : ℕ) → v + 1 < length targets.old
        → slice_index targets.new (v + 1)
        ≡ F.ops.mul (slice_index targets.old (v + 1))
        (F.ops.inv (F.ops.sub (slice_index points.now (v + 1)) (slice_index points.now 0))) }
    ensures sums { sum F.ops (length targets.old) (λ v. slice_index targets.new v) ≡ slice_index targets.old 0 }
    ensures below { slice_index targets.new 0 < F.ops.q }
{
    let mut first = targets[0];
    for v in 1..targets.len() {
        let y = F::product(targets[v], F::inverse(F::difference(points[v], points[0])));
        targets[v] = y;
        first = F::difference(first, y);
    }
    targets[0] = first;
}

/// Solves the Vandermonde system of the points for the targets, in place: afterwards the syndromes of what stands in
/// `targets` are what stood there. It takes about as many products as the square of the number of points.
pub(crate) fn solve<F: Field>(points: &[u16], targets: &mut [u16])
    requires long { length points.now ≡ length targets.old }
    requires points { AllBelow F.ops.q points.now }
    requires differ { AllDiffer points.now }
    requires targets { AllBelow F.ops.q targets.old }
    ensures reached { Reaches F.ops points.now targets.old targets.new }
    ensures below { AllBelow F.ops.q targets.new }
{
    let Some((first, rest)) = points.split_first() else {
        return;
    };
    reduce::<F>(*first, targets);
    solve::<F>(rest, &mut targets[1..]);
    lift::<F>(points, targets);
}
