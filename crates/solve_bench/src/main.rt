// Measures the solver against an elimination of all symbols over all present cells. Standard output says
// only what both find; the times, which differ from run to run, go to standard error. Refusals are printed by
// number.
#![tactic(auto)]

use code::{Code, Refusal};
use encode::encode;
use field::{Bytes, Field, Prime};
use solve::only_file;
use std::time::Instant;
use std::{fmt, io};
use store::{Grid, LOST};
use trial::{Solved, fill_file, room, solve_cells};

// How often each of the two runs. The fastest turn counts.
const TURNS: u32 = 5;

// Which cells are lost: the first data cells of the stripe, or the first nodes. An enum and no closure, since
// it is printed too.
#[derive(Clone, Copy, Debug)]
enum Losses {
    Symbols(usize),
    Nodes(usize),
}

impl fmt::Display for Losses {
    fn fmt<W: fmt::Write>(&self, f: &mut fmt::Formatter<W>) -> fmt::Result {
        match self {
            Losses::Symbols(count) => write!(f, "{count} data cells lost"),
            Losses::Nodes(count) => write!(f, "{count} nodes lost"),
        }
    }
}

impl Losses {
    // Loses these cells of a stripe.
    fn lose(self, code: &Code, held: &mut [u32]) {
        let rows = held.chunks_exact_mut(code.columns());
        match self {
            Losses::Symbols(count) => {
                let cells = rows.flat_map(|row| row.iter_mut().take(code.data_columns()));
                for number in cells.take(count) {
                    *number = LOST;
                }
            }
            Losses::Nodes(count) => {
                for row in rows.take(count) {
                    row.fill(LOST);
                }
            }
        }
    }
}

// What a solver answers, and how many nanoseconds the fastest of these turns takes, of which there is at least one. Not
// the mean, as in encode_bench: an elimination takes long, and other work of the machine disturbs it.
fn fastest<T: Drop, S: FnMut() -> T>(
    rt: &HostRuntime,
    turns: u32,
    mut solver: S,
) -> io::Result<(T, u128)>
    requires { S.IsAlwaysCallable solver }
{
    let start = Instant::now(rt)?;
    let mut answer = solver();
    let mut nanos = start.elapsed(rt)?.as_nanos();
    for _turn in 1..turns {
        let start = Instant::now(rt)?;
        let next = solver();
        nanos = nanos.min(start.elapsed(rt)?.as_nanos());
        answer = next;
    }
    Ok((answer, nanos))
}

// Whether the solver's answer, with the file in its work memory, is what the elimination finds.
fn agree(
    code: &Code,
    fast: Result<usize, Refusal>,
    work: &[u32],
    slow: Result<&Solved, Refusal>,
) -> bool {
    let mut symbols = 0..code.file_length();
    match (fast, slow) {
        (Ok(_), Ok(solved)) => {
            symbols.all(|p| solved.unknown(p).map(u32::from) == work.get(p).copied())
        }
        (Err(Refusal::Ambiguous), Ok(solved)) => symbols.any(|p| solved.unknown(p).is_none()),
        (Err(e), Err(f)) => e == f,
        _ => false,
    }
}

// Prints how long the solver takes, and how many times as long the elimination. encode_bench prints the same
// ratio with words of its own around it.
fn print_ratio(
    rt: &HostRuntime,
    field: &str,
    losses: Losses,
    fast: u128,
    slow: u128,
) -> io::Result<()> {
    let tenths = slow.saturating_mul(10) / fast.max(1);
    eprintln!(rt;
        "    {field}, {losses}: {} microseconds; elimination takes {}.{} times as long.",
        fast / 1000,
        tenths / 10,
        tenths % 10
    )
}

// The stripe of a file that is made up, where a grid holds its cells, without those that are lost.
fn stripe<F: Field>(rt: &HostRuntime, code: &Code, losses: Losses) -> io::Result<Vec<u32>> {
    let mut file = vec![in rt.alloc(); 0u16; code.file_length()]?;
    fill_file::<F>(&mut file);
    let mut cells = vec![in rt.alloc(); 0u16; code.nodes() * code.columns()]?;
    // never declined: the file and the memory have the code's lengths, and the file holds symbols only
    let _ = encode::<F>(code, &file, &mut cells);
    let mut held = Vec::with_capacity(rt.alloc(), cells.len())?;
    for x in &cells {
        held.push(u32::from(*x))?;
    }
    losses.lose(code, &mut held);
    Ok(held)
}

// Runs the solver and the elimination on a stripe without some cells.
fn run_both<F: Field>(
    rt: &HostRuntime,
    code: &Code,
    field: &str,
    losses: Losses,
) -> io::Result<()> {
    let mut held = stripe::<F>(rt, code, losses)?;
    let length = code.file_length();
    let mut work = vec![in rt.alloc(); 0u32; length * (length + 1)]?;
    let grid = Grid::take_up(code.nodes(), code.columns(), &mut held);
    let (fast, fast_nanos) = fastest(rt, TURNS, || only_file::<F, Grid>(code, &grid, &mut work))?;
    // Each turn solves in the same numbers, so only the answer of the last is kept.
    let mut numbers = vec![in rt.alloc(); 0u16; room(code)]?;
    let (_, first_nanos) = fastest(rt, TURNS - 1, || {
        solve_cells::<F>(code, &held, &mut numbers).is_ok()
    })?;
    let start = Instant::now(rt)?;
    let slow = solve_cells::<F>(code, &held, &mut numbers);
    let slow_nanos = first_nanos.min(start.elapsed(rt)?.as_nanos());
    let agreed = agree(code, fast, &work, slow.as_ref().map_err(|e| *e));
    match fast {
        Ok(length) => println!(rt;
            "    {field}, {losses}: a file of {length} symbols; both agree: {agreed}."
        )?,
        Err(e) => println!(rt;
            "    {field}, {losses}: refusal {}; both agree: {agreed}.",
            e.number()
        )?,
    }
    print_ratio(rt, field, losses, fast_nanos, slow_nanos)
}

// Both solvers with each of the losses.
fn compare<F: Field>(rt: &HostRuntime, field: &str, code: &Code) -> io::Result<()> {
    for losses in [
        Losses::Symbols(0),
        Losses::Symbols(8),
        Losses::Symbols(32),
        Losses::Nodes(code.parity_nodes() + code.coded_columns()),
    ] {
        run_both::<F>(rt, code, field, losses)?;
    }
    Ok(())
}

fn main(rt: HostRuntime) -> io::Result<()> {
    println!(rt; "The solver and an elimination of all symbols over all present cells:")?;
    for (n, k, m, a) in [
        (16, 12, 4, 1),
        (24, 20, 6, 2),
        (64, 48, 8, 3),
        (64, 63, 8, 3),
    ] {
        let Ok(code) = Code::new(n, k, m, a) else {
            println!(rt; "  no code.")?;
            continue;
        };
        // Printed twice, as encode_bench does, which asks for no memory.
        println!(rt; "  n {n}, k {k}, m {m}, a {a}:")?;
        eprintln!(rt; "  n {n}, k {k}, m {m}, a {a}:")?;
        compare::<Prime>(&rt, "prime", &code)?;
        compare::<Bytes>(&rt, "bytes", &code)?;
    }
    Ok(())
}
