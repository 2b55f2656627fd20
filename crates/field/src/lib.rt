// Finite fields whose symbols are the numbers below their size, at most 65,536.
#![tactic(auto)]

ghost use Rattle.std.specs.Prelude.{◌≡◌, ℕ};
ghost use Rattle.field.specs.Laws.{Laws, Operations, power, symbol};

mod gf256;
mod gf257;

pub use gf256::Bytes;
pub use gf257::Prime;

/// A field. Its operations take any 16-bit numbers: an operand of the field's size or more counts
/// as 0, and every result is below the size.
pub trait Field {
    // What the functions below compute.
    ghost ops: { Operations };

    /// How many symbols the field has, at most 65,536.
    const SIZE: u32;

    ghost SIZE: { ℕ };

    /// The generator α: its powers α^0 to α^127 are all different.
    const GENERATOR: u16;

    ghost GENERATOR: { ℕ };

    /// u + v.
    fn sum(u: u16, v: u16) -> u16
        ensures { result ≡ ops.add u v };

    /// u − v: the symbol whose sum with v is u.
    fn difference(u: u16, v: u16) -> u16
        ensures { result ≡ ops.sub u v };

    /// u · v.
    fn product(u: u16, v: u16) -> u16
        ensures { result ≡ ops.mul u v };

    /// The symbol whose product with u is 1; that of 0 is 0.
    fn inverse(u: u16) -> u16
        ensures { result ≡ ops.inv u };

    /// The size q of the operations, `SIZE`.
    fn order() -> u32
        ensures { result ≡ ops.q }
    {
        Self::SIZE
    }

    /// The generator α of the operations, `GENERATOR`.
    fn alpha() -> u16
        ensures { result ≡ ops.α }
    {
        Self::GENERATOR
    }

    // The constants are those of the operations.
    ghost size: { SIZE ≡ ops.q };

    ghost generator: { GENERATOR ≡ ops.α };

    // The operations keep the laws of a field.
    ghost laws: { Laws ops };
}

// A number as an operand of a field of that size.
fn operand(size: u16, u: u16) -> u16
    ensures { result ≡ symbol size u }
{
    if u < size { u } else { 0 }
}

/// u to the power e, by squaring; the power 0 is 1, also of 0.
pub fn power<F: Field>(u: u16, e: usize) -> u16
    ensures { result ≡ power F.ops u e }
{
    let mut result = 1;
    let mut base = u;
    let mut left = e;
    while left > 0 {
        if left % 2 == 1 {
            result = F::product(result, base);
        }
        base = F::product(base, base);
        left /= 2;
    }
    result
}
