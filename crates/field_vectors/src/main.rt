// Tries the two fields on worked values, and compares them with slow computations that share no code with them.
#![tactic(auto)]

ghost use Rattle.std.specs.Prelude.{◌<◌};

use field::{Bytes, Field, Prime, power};
use std::io;
use trial::Tally;

// Both operands of the compared sums and products run from 0 to 299, so past the size of each field.
const LAST: u16 = 299;

// How many powers of an operand are compared.
const EXPONENTS: usize = 40;

// The sum and the product of a field, computed the slow way.
trait Slow {
    fn slow_sum(u: u16, v: u16) -> u16;

    fn slow_product(u: u16, v: u16) -> u16;
}

// The bits that exactly one of two bytes has. Here and below a loop counts bits or turns, since these are
// what is computed with: there is no slice to go over.
fn bits_of_one(u: u16, v: u16) -> u16 {
    let mut sum = 0;
    for bit in 0..8u32 {
        if (u >> bit) & 1 != (v >> bit) & 1 {
            sum |= 1 << bit;
        }
    }
    sum
}

// The whole product of two polynomials, and then its terms from x^14 down to x^8 taken off, one by one.
fn shift_and_reduce(u: u32, v: u32) -> u32 {
    let mut whole = 0;
    for bit in 0..8u32 {
        if (u >> bit) & 1 == 1 {
            whole ^= v << bit;
        }
    }
    for above in 0..7u32 {
        if (whole >> (14 - above)) & 1 == 1 {
            whole ^= 0x11D << (6 - above);
        }
    }
    whole
}

impl Slow for Bytes {
    fn slow_sum(u: u16, v: u16) -> u16 {
        bits_of_one(below(256, u), below(256, v))
    }

    fn slow_product(u: u16, v: u16) -> u16 {
        let product = shift_and_reduce(u32::from(below(256, u)), u32::from(below(256, v)));
        // below 256, so the cast loses nothing
        (product & 0xff) as u16
    }
}

// `times` additions of v to u, each reduced modulo 257.
fn add_repeatedly(u: u16, v: u16, times: u16) -> u16
    requires first { u < 257 }
    requires second { v < 257 }
    ensures { result < 257 }
{
    let mut total = u;
    for _turn in 0..times {
        total += v;
        if total >= 257 {
            total -= 257;
        }
    }
    total
}

impl Slow for Prime {
    fn slow_sum(u: u16, v: u16) -> u16 {
        add_repeatedly(below(257, u), 1, below(257, v))
    }

    fn slow_product(u: u16, v: u16) -> u16 {
        add_repeatedly(0, below(257, u), below(257, v))
    }
}

// A number below the size as it is, and any other as 0.
fn below(size: u16, u: u16) -> u16
    requires { 0 < size }
    ensures { result < size }
{
    if u < size { u } else { 0 }
}

// What a computation gives for each pair of operands up to the last, against what is expected of it.
fn compare_pairs<C: Fn(u16, u16) -> u16, E: Fn(u16, u16) -> u16>(
    last: u16,
    computed: C,
    expected: E,
) -> Tally
    requires computed { C.IsAlwaysCallable computed }
    requires expected { E.IsAlwaysCallable expected }
{
    let mut tally = Tally::new();
    for u in 0..=last {
        for v in 0..=last {
            tally.compare(computed(u, v), expected(u, v));
        }
    }
    tally
}

// The product of every symbol but 0 and its inverse against 1.
fn compare_inverses<F: Field>() -> Tally {
    let mut tally = Tally::new();
    // below F::SIZE, at most 257, so the casts lose nothing
    for u in 1..F::SIZE {
        tally.compare(F::product(u as u16, F::inverse(u as u16)), 1);
    }
    tally
}

// The powers of every operand against slow products, one after another.
fn compare_powers<F: Field + Slow>() -> Tally {
    let mut tally = Tally::new();
    for u in 0..=LAST {
        let mut expected = 1;
        for e in 0..EXPONENTS {
            tally.compare(power::<F>(u, e), expected);
            expected = F::slow_product(u, expected);
        }
    }
    tally
}

// A product, an inverse, and what operands at and above the field's size give.
fn print_worked_values<F: Field>(rt: &HostRuntime, u: u16, v: u16, w: u16) -> io::Result<()> {
    let size = F::SIZE;
    let above = u16::try_from(size).unwrap_or(u16::MAX);
    println!(rt; "Worked values:")?;
    println!(rt; "  {u} times {v} is {}.", F::product(u, v))?;
    println!(rt;
        "  The inverse of {w} is {}, and the inverse of 0 is {}.",
        F::inverse(w),
        F::inverse(0)
    )?;
    println!(rt; "  A number of {size} or more counts as 0:")?;
    println!(rt;
        "    7 plus {above} is {}, and 7 minus {above} is {}.",
        F::sum(7, above),
        F::difference(7, above)
    )?;
    println!(rt;
        "    7 times 65535 is {}, and the inverse of {above} is {}.",
        F::product(7, 65535),
        F::inverse(above)
    )
}

fn print_comparisons<F: Field + Slow>(rt: &HostRuntime) -> io::Result<()> {
    println!(rt; "Compared with a slow computation that shares no code with the field:")?;
    println!(rt;
        "  the sums of two numbers from 0 to 299: {}",
        compare_pairs(LAST, |u, v| F::sum(u, v), |u, v| F::slow_sum(u, v))
    )?;
    println!(rt;
        "  the products of two numbers from 0 to 299: {}",
        compare_pairs(LAST, |u, v| F::product(u, v), |u, v| F::slow_product(u, v))
    )?;
    println!(rt;
        "  the powers of a number from 0 to 299 with exponents from 0 to 39: {}",
        compare_powers::<F>()
    )?;
    println!(rt; "Compared with what the laws of a field ask:")?;
    // at most 256, so the cast loses nothing
    let last = (F::SIZE - 1) as u16;
    println!(rt;
        "  u + v - v with u, at all symbols u and v: {}",
        compare_pairs(last, |u, v| F::difference(F::sum(u, v), v), |u, _| u)
    )?;
    println!(rt;
        "  u times the inverse of u with 1, at all symbols u but 0: {}",
        compare_inverses::<F>()
    )
}

// What the output is about, for a reader who has seen nothing else.
fn print_introduction(rt: &HostRuntime) -> io::Result<()> {
    println!(rt;
        "A finite field of q symbols computes with the numbers 0 to q - 1. It adds, subtracts and multiplies them,"
    )?;
    println!(rt;
        "and inverts each but 0; every result is one of them again. Here two such fields are tried."
    )?;
    println!(rt)
}

// All of it in one field: its worked values are u times v and the inverse of w.
fn print_field<F: Field + Slow>(
    rt: &HostRuntime,
    name: &str,
    u: u16,
    v: u16,
    w: u16,
) -> io::Result<()> {
    println!(rt;
        "{name}: {} symbols, and the generator {}.",
        F::SIZE,
        F::GENERATOR
    )?;
    print_worked_values::<F>(rt, u, v, w)?;
    print_comparisons::<F>(rt)
}

fn main(rt: HostRuntime) -> io::Result<()> {
    print_introduction(&rt)?;
    print_field::<Bytes>(&rt, "The field of bytes", 2, 128, 2)?;
    println!(rt)?;
    print_field::<Prime>(&rt, "The numbers modulo 257", 256, 256, 3)
}
