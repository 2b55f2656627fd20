// Tries the encoder on worked values, and recomputes both rules on what it writes by plain loops of its own.
// These share nothing with the encoder, nor with the slow one of encode_bench. Refusals are printed by number.
#![tactic(auto)]

use code::{Code, MOST_CELLS, MOST_SYMBOLS, Refusal};
use encode::encode;
use field::{Bytes, Field, Prime};
use std::{fmt, io};
use trial::{Tally, fill_file};

// What stands in the memory before a call.
const MARK: u16 = 7777;

// The numbers n, k, m and a of a code, as they are printed.
#[derive(Clone, Copy)]
struct Numbers(usize, usize, usize, usize);

impl Numbers {
    fn code(&self) -> Result<Code, Refusal> {
        Code::new(self.0, self.1, self.2, self.3)
    }
}

impl fmt::Display for Numbers {
    fn fmt<W: fmt::Write>(&self, f: &mut fmt::Formatter<W>) -> fmt::Result {
        write!(f, "n {}, k {}, m {}, a {}", self.0, self.1, self.2, self.3)
    }
}

// u^e by e products.
fn slow_power<F: Field>(u: u16, e: usize) -> u16 {
    (0..e).fold(1, |power, _| F::product(power, u))
}

// The i-th power of α to the power e, with each product computed from nothing.
fn weight<F: Field>(i: usize, e: usize) -> u16 {
    slow_power::<F>(slow_power::<F>(F::GENERATOR, i), e)
}

// A code, and a memory that begins with the cells of a stripe of it, node by node.
#[derive(Clone, Copy)]
struct Stripe<'a> {
    code: &'a Code,
    cells: &'a [u16],
}

impl Stripe<'_> {
    // The number that stands at cell (j, c), for a column of the code, if the memory has that place.
    fn cell(&self, j: usize, c: usize) -> Option<u16> {
        let at = j.checked_mul(self.code.columns())?.checked_add(c)?;
        self.cells.get(at).copied()
    }

    // What the column rule wants to be 0 for column t and i.
    fn column_sum<F: Field>(&self, t: usize, i: usize) -> u16 {
        (0..self.code.nodes()).fold(0, |sum, j| {
            F::sum(
                sum,
                F::product(weight::<F>(i, j), self.cell(j, t).unwrap_or(0)),
            )
        })
    }

    // The sum over the data columns t of α^(i·t) · x(⟨j − t − 1⟩, t).
    fn group_sum<F: Field>(&self, j: usize, i: usize) -> u16 {
        let behind = (0..j).rev().chain((j..self.code.nodes()).rev());
        (0..self.code.data_columns())
            .zip(behind)
            .fold(0, |sum, (t, node)| {
                F::sum(
                    sum,
                    F::product(weight::<F>(i, t), self.cell(node, t).unwrap_or(0)),
                )
            })
    }

    // Every sum of the column rule against 0.
    fn compare_columns<F: Field>(&self) -> Tally {
        let mut tally = Tally::new();
        for t in 0..self.code.data_columns() {
            for i in 0..self.code.parity_nodes() {
                tally.compare(self.column_sum::<F>(t, i), 0);
            }
        }
        tally
    }

    // Every coded cell against the sum of its group: the i-th of node ⟨j + i⟩ against that of node j.
    fn compare_groups<F: Field>(&self) -> Tally {
        let code = self.code;
        let mut tally = Tally::new();
        for j in 0..code.nodes() {
            let ahead = (j..code.nodes()).chain(0..j);
            let columns = code.data_columns()..code.columns();
            for (i, (node, column)) in ahead.zip(columns).enumerate() {
                tally.compare(self.cell(node, column), Some(self.group_sum::<F>(j, i)));
            }
        }
        tally
    }

    // The symbols of the file against the first k nodes.
    fn compare_data(&self, file: &[u16]) -> Tally {
        let mut tally = Tally::new();
        let rows = self.cells.chunks_exact(self.code.columns());
        for (symbols, row) in file.chunks_exact(self.code.data_columns()).zip(rows) {
            for (symbol, cell) in symbols.iter().zip(row) {
                tally.compare(*cell, *symbol);
            }
        }
        tally
    }
}

// The numbers behind so many cells against the 7,777 that stood there.
fn compare_rest(count: usize, cells: &[u16]) -> Tally {
    let mut tally = Tally::new();
    for x in cells.iter().skip(count) {
        tally.compare(*x, MARK);
    }
    tally
}

// Encodes a file that is made up, and recomputes both rules on what stands in the memory.
fn try_code<F: Field>(rt: &HostRuntime, code: &Code) -> io::Result<()> {
    // Arrays of the largest size, here and below: this program asks for no memory.
    let mut symbols = [0u16; MOST_SYMBOLS];
    let file = &mut symbols[..code.file_length()];
    fill_file::<F>(file);
    let mut cells = [MARK; MOST_CELLS];
    match encode::<F>(code, file, &mut cells) {
        Ok(count) => print_rules::<F>(
            rt,
            Stripe {
                code,
                cells: &cells,
            },
            file,
            count,
        ),
        Err(e) => println!(rt; "    refusal {}.", e.number()),
    }
}

// What the encoder has written for a file, against the two rules.
fn print_rules<F: Field>(
    rt: &HostRuntime,
    stripe: Stripe,
    file: &[u16],
    count: usize,
) -> io::Result<()> {
    let length = file.len();
    println!(rt; "    the file of {length} symbols takes {count} cells.")?;
    println!(rt;
        "    the file in the first k nodes: {}",
        stripe.compare_data(file)
    )?;
    println!(rt;
        "    sums of the column rule: {}",
        stripe.compare_columns::<F>()
    )?;
    println!(rt;
        "    coded cells and their groups: {}",
        stripe.compare_groups::<F>()
    )?;
    println!(rt;
        "    numbers behind the cells: {}",
        compare_rest(count, stripe.cells)
    )
}

// The small code of the worked values: n 5, k 4, m 2, a 1.
fn small_code() -> Code {
    Code::new(5, 4, 2, 1).unwrap()
}

// The stripe of the file 1 to 8 in the small code.
fn print_worked<F: Field>(rt: &HostRuntime) -> io::Result<()> {
    let mut cells = [MARK; 15];
    match encode::<F>(&small_code(), &[1, 2, 3, 4, 5, 6, 7, 8], &mut cells) {
        Ok(count) => {
            println!(rt; "  The symbols 1 to 8 take {count} cells.")?;
            println!(rt;
                "  Node 4 holds {}, {}, {}.",
                cells[12], cells[13], cells[14]
            )?;
            println!(rt;
                "  Column 2 is {}, {}, {}, {}, {}.",
                cells[2], cells[5], cells[8], cells[11], cells[14]
            )
        }
        Err(e) => println!(rt; "  Refusal {}.", e.number()),
    }
}

// What the encoder answers to a file in the small code, and whether a memory of 7,777s with so much room, at most
// for the 15 cells of the code, stays as it is where it declines.
fn print_answer<F: Field>(
    rt: &HostRuntime,
    what: &str,
    file: &[u16],
    room: usize,
) -> io::Result<()> {
    let mut numbers = [MARK; 15];
    let cells = &mut numbers[..room.min(15)];
    match encode::<F>(&small_code(), file, cells) {
        Ok(count) => println!(rt; "  {what}: accepted, {count} cells."),
        Err(e) => println!(rt;
            "  {what}: refusal {}; the memory as it was: {}",
            e.number(),
            compare_rest(0, cells)
        ),
    }
}

// What is refused, and in which order.
fn print_answers<F: Field>(rt: &HostRuntime) -> io::Result<()> {
    let tried: [(&str, &[u16], usize); 7] = [
        ("7 symbols", &[1, 2, 3, 4, 5, 6, 7], 15),
        ("9 symbols", &[1, 2, 3, 4, 5, 6, 7, 8, 9], 15),
        (
            "8 symbols, one of them 256",
            &[1, 2, 3, 4, 5, 6, 7, 256],
            15,
        ),
        (
            "8 symbols, one of them 257",
            &[1, 2, 3, 4, 5, 6, 7, 257],
            15,
        ),
        ("room for 14 cells only", &[1, 2, 3, 4, 5, 6, 7, 8], 14),
        (
            "9 symbols, one of them 257",
            &[1, 2, 3, 4, 5, 6, 7, 8, 257],
            15,
        ),
        (
            "9 symbols, one of them 257, and room for 14 cells only",
            &[1, 2, 3, 4, 5, 6, 7, 8, 257],
            14,
        ),
    ];
    for (what, file, room) in tried {
        print_answer::<F>(rt, what, file, room)?;
    }
    Ok(())
}

// Which numbers make a code.
fn print_codes(rt: &HostRuntime) -> io::Result<()> {
    println!(rt; "Which numbers make a code:")?;
    for numbers in [
        Numbers(64, 63, 8, 3),
        Numbers(65, 63, 8, 3),
        Numbers(3, 1, 2, 1),
        Numbers(3, 2, 2, 1),
        Numbers(3, 2, 2, 2),
    ] {
        match numbers.code() {
            Ok(_) => println!(rt; "  {numbers}: a code.")?,
            Err(e) => println!(rt; "  {numbers}: refusal {}.", e.number())?,
        }
    }
    Ok(())
}

// All of it in one field.
fn print_field<F: Field>(rt: &HostRuntime) -> io::Result<()> {
    print_worked::<F>(rt)?;
    print_answers::<F>(rt)?;
    println!(rt; "  Compared with loops that share no code with the encoder:")?;
    for numbers in [
        Numbers(64, 63, 8, 3),
        Numbers(64, 20, 8, 3),
        Numbers(12, 1, 3, 2),
        Numbers(11, 7, 8, 3),
        Numbers(2, 1, 1, 1),
    ] {
        match numbers.code() {
            Ok(code) => {
                println!(rt; "  {numbers}:")?;
                try_code::<F>(rt, &code)?;
            }
            Err(e) => println!(rt; "  {numbers}: no code, refusal {}.", e.number())?,
        }
    }
    Ok(())
}

// What the output is about, for a reader who has seen nothing else.
fn print_introduction(rt: &HostRuntime) -> io::Result<()> {
    println!(rt;
        "A file of k times m symbols is laid over n nodes. Each node holds a symbol for each of the m data columns and"
    )?;
    println!(rt;
        "the a coded columns. The first k nodes hold the file; the others make the sums of each data column 0; a coded"
    )?;
    println!(rt;
        "cell is a sum over a group of data cells. Here two fields and some codes are tried."
    )?;
    println!(rt)
}

fn main(rt: HostRuntime) -> io::Result<()> {
    print_introduction(&rt)?;
    print_codes(&rt)?;
    println!(rt)?;
    println!(rt; "The numbers modulo 257, n 5, k 4, m 2, a 1:")?;
    print_field::<Prime>(&rt)?;
    println!(rt)?;
    println!(rt; "The field of bytes, n 5, k 4, m 2, a 1:")?;
    print_field::<Bytes>(&rt)
}
