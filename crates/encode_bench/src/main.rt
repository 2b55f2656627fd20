// Measures the encoder against a straightforward one that fills in each column by plain Gaussian
// elimination. Standard output says only whether both write the same; the times, which differ from run to
// run, go to standard error.
#![tactic(auto)]

use code::{Code, MOST_CELLS, MOST_NODES, MOST_SYMBOLS};
use encode::encode;
use field::{Bytes, Field, Prime, power};
use std::io;
use std::time::{Duration, Instant};
use trial::{eliminate, fill_file};

// How often each encoder runs.
const TURNS: u32 = 20;

// The most numbers in the equations of a column: an equation for each parity node, with a factor for each and the
// right side, and one node at least holds data.
const MOST_NUMBERS: usize = (MOST_NODES - 1) * MOST_NODES;

// A code, and a memory in which the straightforward encoder writes a stripe of it.
#[derive(Drop)]
struct Stripe<'a> {
    code: &'a Code,
    cells: &'a mut [u16],
}

impl Stripe<'_> {
    // The place of cell (j, c) in the memory.
    fn place(&self, j: usize, c: usize) -> usize {
        j.saturating_mul(self.code.columns()).saturating_add(c)
    }

    // What the data nodes leave of 0 in the i-th sum of data column t.
    fn right_side<F: Field>(&self, t: usize, i: usize) -> u16 {
        let rows = self
            .cells
            .chunks_exact(self.code.columns())
            .take(self.code.data_nodes());
        let sum = rows.enumerate().fold(0, |sum, (j, row)| {
            let weight = power::<F>(F::GENERATOR, i.saturating_mul(j));
            F::sum(sum, F::product(weight, row.get(t).copied().unwrap_or(0)))
        });
        F::difference(0, sum)
    }

    // Writes the equations of data column t: the i-th is the sum over the parity nodes v of α^(i·v) · x(v, t),
    // and what the data nodes leave of 0.
    fn fill_equations<F: Field>(&self, t: usize, equations: &mut [u16]) {
        let code = self.code;
        let rows = equations.chunks_exact_mut(code.parity_nodes() + 1);
        for (i, row) in rows.enumerate() {
            for (v, x) in (code.data_nodes()..code.nodes()).zip(row.iter_mut()) {
                *x = power::<F>(F::GENERATOR, i.saturating_mul(v));
            }
            if let Some(x) = row.last_mut() {
                *x = self.right_side::<F>(t, i);
            }
        }
    }

    // The sum of the group of node j for coded column i.
    fn group_sum<F: Field>(&self, j: usize, i: usize) -> u16 {
        (0..self.code.data_columns()).fold(0, |sum, t| {
            let weight = power::<F>(F::GENERATOR, i.saturating_mul(t));
            let at = self.place(self.code.behind(j, t + 1), t);
            F::sum(
                sum,
                F::product(weight, self.cells.get(at).copied().unwrap_or(0)),
            )
        })
    }

    // The coded cells, each from the sum of its group. By places and not by rows, since the cells that are
    // read and the one that is written lie in different rows of the same memory.
    fn fill_groups<F: Field>(&mut self) {
        let code = self.code;
        for j in 0..code.nodes() {
            for i in 0..code.coded_columns() {
                let sum = self.group_sum::<F>(j, i);
                let at = self.place(code.ahead(j, i), code.data_columns() + i);
                if let Some(x) = self.cells.get_mut(at) {
                    *x = sum;
                }
            }
        }
    }

    // The symbols of the file, in the data columns of the data nodes.
    fn fill_data(&mut self, file: &[u16]) {
        let data_columns = self.code.data_columns();
        let rows = self.cells.chunks_exact_mut(self.code.columns());
        for (row, symbols) in rows.zip(file.chunks_exact(data_columns)) {
            if let Some(data) = row.get_mut(..data_columns) {
                data.copy_from_slice(symbols);
            }
        }
    }

    // The straightforward encoder.
    fn encode<F: Field>(&mut self, file: &[u16]) {
        let code = self.code;
        let r = code.parity_nodes();
        let mut numbers = [0u16; MOST_NUMBERS];
        let equations = &mut numbers[..r * (r + 1)];
        self.fill_data(file);
        for t in 0..code.data_columns() {
            self.fill_equations::<F>(t, equations);
            let solved = eliminate::<F>(equations, r);
            let (columns, data_nodes) = (code.columns(), code.data_nodes());
            let rows = self.cells.chunks_exact_mut(columns);
            for (v, row) in rows.skip(data_nodes).enumerate() {
                if let (Some(x), Some(symbol)) = (row.get_mut(t), solved.unknown(v)) {
                    *x = symbol;
                }
            }
        }
        self.fill_groups::<F>();
    }
}

// How long an encoder takes for all its turns. Not the fastest turn, as in solve_bench: here a turn is so short
// that the clock would show little of it, there one takes long and other work of the machine disturbs it.
fn time_turns<E: FnMut()>(rt: &HostRuntime, mut encoder: E) -> io::Result<Duration>
    requires { E.IsAlwaysCallable encoder }
{
    let start = Instant::now(rt)?;
    for _turn in 0..TURNS {
        encoder();
    }
    start.elapsed(rt)
}

// How long a file takes, and how many times as long the straightforward encoder takes. solve_bench prints the
// same ratio with words of its own around it.
fn print_ratio(rt: &HostRuntime, field: &str, slow: Duration, fast: Duration) -> io::Result<()> {
    let tenths = slow.as_nanos().saturating_mul(10) / fast.as_nanos().max(1);
    let micros = fast.as_micros() / u128::from(TURNS);
    eprintln!(rt;
        "    {field}: {micros} microseconds a file; elimination takes {}.{} times as long.",
        tenths / 10,
        tenths % 10
    )
}

// Runs both encoders on a file that is made up.
fn run_both<F: Field>(rt: &HostRuntime, code: &Code, field: &str) -> io::Result<()> {
    // Arrays of the largest size: this program asks for no memory.
    let mut symbols = [0u16; MOST_SYMBOLS];
    let file = &mut symbols[..code.file_length()];
    fill_file::<F>(file);
    let mut cells = [0u16; MOST_CELLS];
    let mut expected = [0u16; MOST_CELLS];
    // The encoder declines nothing here: the file has the code's length and symbols only, and the memory room.
    let fast = time_turns(rt, || {
        let _ = encode::<F>(code, file, &mut cells);
    })?;
    let slow = time_turns(rt, || {
        Stripe {
            code,
            cells: &mut expected,
        }
        .encode::<F>(file);
    })?;
    let differing = cells
        .iter()
        .zip(&expected)
        .filter(|(x, y)| *x != *y)
        .count();
    println!(rt; "    {field}: of {MOST_CELLS} numbers {differing} differ.")?;
    print_ratio(rt, field, slow, fast)
}

fn main(rt: HostRuntime) -> io::Result<()> {
    println!(rt;
        "The encoder and one that fills in each column by Gaussian elimination write the same memory:"
    )?;
    for (n, k, m, a) in [
        (64, 60, 8, 3),
        (64, 48, 8, 3),
        (64, 16, 8, 3),
        (18, 15, 2, 1),
    ] {
        // Printed twice: a title made first would ask for memory.
        println!(rt; "  n {n}, k {k}, m {m}, a {a}:")?;
        eprintln!(rt; "  n {n}, k {k}, m {m}, a {a}:")?;
        match Code::new(n, k, m, a) {
            Ok(code) => {
                run_both::<Prime>(&rt, &code, "prime")?;
                run_both::<Bytes>(&rt, &code, "bytes")?;
            }
            // By number, as all output here that is compared with what was stored.
            Err(e) => println!(rt; "    no code, refusal {}.", e.number())?,
        }
    }
    Ok(())
}
