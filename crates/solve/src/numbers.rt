// The operations of a field on 32-bit numbers, as work memory holds them. An operand of the field's size or more
// counts as 0.
ghost use Rattle.std.specs.Prelude.{◌≡◌};
ghost use Rattle.solve.specs.Rows.{operand};

use field::Field;

// A number as operand of a field; one of more than 16 bits counts as 0.
fn operand(x: u32) -> u16
    ensures { result ≡ operand x }
{
    u16::try_from(x).unwrap_or(0)
}

pub(crate) fn times<F: Field>(u: u32, v: u32) -> u32
    ensures { result ≡ F.ops.mul u v }
{
    u32::from(F::product(operand(u), operand(v)))
}

pub(crate) fn minus<F: Field>(u: u32, v: u32) -> u32
    ensures { result ≡ F.ops.sub u v }
{
    u32::from(F::difference(operand(u), operand(v)))
}

pub(crate) fn inverse<F: Field>(u: u32) -> u32
    ensures { result ≡ F.ops.inv u }
{
    u32::from(F::inverse(operand(u)))
}
