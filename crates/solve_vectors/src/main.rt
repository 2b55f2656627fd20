// Tries the solver on worked values, and compares it on many random cells with the slow elimination of crate
// trial. Refusals are printed by number.
#![tactic(auto)]

ghost use Rattle.std.specs.Prelude.{◌<◌};

use code::{Code, Refusal};
use encode::encode;
use field::{Bytes, Field, Prime};
use solve::{only_file, shared_symbol};
use std::{fmt, io};
use store::{Grid, LOST};
use trial::{Solved, Tally, solve_cells};

// The codes here have at most 20 symbols and 64 cells. Every solver gets more work memory than the 420
// numbers that it needs for 20 symbols, and the slow elimination 21 numbers for each of 64 cells. Files and
// stripes are arrays of these lengths, and no Vec of a code's own: for every code as many random numbers are
// drawn, and the cases stay those that were looked through.
const SYMBOLS: usize = 20;

const CELLS: usize = 64;

const WORK: usize = 450;

const EQUATIONS: usize = 1344;

// What stands in the work memory before a call.
const MARK: u32 = 7777;

// How many cases of random cells are tried in each code.
const CASES: u32 = 60;

// What the solver answers, as it is printed: the value, or the refusal with the cell that it names.
#[derive(Drop)]
struct Told<T>(Result<T, Refusal>);

impl<T: fmt::Display> fmt::Display for Told<T> {
    fn fmt<W: fmt::Write>(&self, f: &mut fmt::Formatter<W>) -> fmt::Result {
        match &self.0 {
            Ok(value) => write!(f, "{value}"),
            Err(e) => {
                write!(f, "refusal {}", e.number())?;
                if let Some((node, column)) = e.place() {
                    write!(f, " at node {node}, column {column}")?;
                }
                Ok(())
            }
        }
    }
}

// The code of these four numbers, all of them chosen here so that there is one.
fn code_of((n, k, m, a): (usize, usize, usize, usize)) -> io::Result<Code> {
    Code::new(n, k, m, a).map_err(|_| io::Error::other("no code"))
}

// The number that a grid over these holds for the cell at a node and a column, for a column of the code, if there is
// that place.
fn cell_mut<'a>(
    code: &Code,
    held: &'a mut [u32],
    node: usize,
    column: usize,
) -> Option<&'a mut u32> {
    let at = node.checked_mul(code.columns())?.checked_add(column)?;
    held.get_mut(at)
}

// The stripe of the file at the front of these symbols where a grid holds its cells, and zeros behind it. The
// encoder declines nothing here: the file has the code's length and symbols only, and the memory room.
fn stripe<F: Field>(code: &Code, symbols: &[u16; SYMBOLS]) -> [u32; CELLS] {
    let file = &symbols[..code.file_length().min(SYMBOLS)];
    let mut cells = [0u16; CELLS];
    let _ = encode::<F>(code, file, &mut cells);
    cells.map(u32::from)
}

// A code and the numbers of a grid stay two parameters, here and below: each question to the solver makes a grid, which
// borrows the numbers alone, and a struct of both would be taken apart for it each time.

// Loses all cells of some nodes.
fn lose_nodes(code: &Code, nodes: &[usize], held: &mut [u32]) {
    for (node, row) in held.chunks_exact_mut(code.columns()).enumerate() {
        if nodes.contains(&node) {
            row.fill(LOST);
        }
    }
}

// What the solver answers for a place in a grid over these numbers.
fn ask_place<F: Field>(
    code: &Code,
    held: &mut [u32],
    row: usize,
    column: usize,
    work: &mut [u32],
) -> Result<u16, Refusal> {
    let grid = Grid::take_up(code.nodes(), code.columns(), held);
    shared_symbol::<F, Grid>(code, &grid, row, column, work)
}

// What it answers for the whole file.
fn ask_file<F: Field>(code: &Code, held: &mut [u32], work: &mut [u32]) -> Result<usize, Refusal> {
    let grid = Grid::take_up(code.nodes(), code.columns(), held);
    only_file::<F, Grid>(code, &grid, work)
}

// Prints the answers for the places of each row.
fn print_places<F: Field>(rt: &HostRuntime, code: &Code, held: &mut [u32]) -> io::Result<()> {
    for row in 0..code.data_nodes() {
        print!(rt; "    row {row}:")?;
        for column in 0..code.data_columns() {
            let mut work = [MARK; WORK];
            let answer = ask_place::<F>(code, held, row, column, &mut work);
            let comma = if column + 1 < code.data_columns() {
                ","
            } else {
                ""
            };
            print!(rt; " {}{comma}", Told(answer))?;
        }
        println!(rt)?;
    }
    Ok(())
}

// Prints the answer for the file.
fn print_file<F: Field>(rt: &HostRuntime, code: &Code, held: &mut [u32]) -> io::Result<()> {
    let mut work = [MARK; WORK];
    print!(rt; "    the file:")?;
    match ask_file::<F>(code, held, &mut work) {
        Ok(length) => {
            for symbol in work.iter().take(length) {
                print!(rt; " {symbol}")?;
            }
            println!(rt)
        }
        Err(e) => println!(rt; " {}", Told::<u16>(Err(e))),
    }
}

// The file 1, 2, 3 and so on, and the stripe of it.
const COUNTED: [u16; SYMBOLS] = [
    1, 2, 3, 4, 5, 6, 7, 8, 9, 10, 11, 12, 13, 14, 15, 16, 17, 18, 19, 20,
];

fn counted_stripe<F: Field>(code: &Code) -> [u32; CELLS] {
    stripe::<F>(code, &COUNTED)
}

// The nodes that are lost, as they are printed.
#[derive(Clone, Copy)]
struct Lost<'a>(&'a [usize]);

impl fmt::Display for Lost<'_> {
    fn fmt<W: fmt::Write>(&self, f: &mut fmt::Formatter<W>) -> fmt::Result {
        if self.0.is_empty() {
            f.write_str("with all nodes")
        } else {
            write!(f, "without the nodes {:?}", self.0)
        }
    }
}

// What is known of cells, under a line that says what they are.
fn print_known<F: Field, D: fmt::Display + Drop>(
    rt: &HostRuntime,
    code: &Code,
    what: D,
    held: &mut [u32],
) -> io::Result<()> {
    println!(rt; "  {what}:")?;
    print_places::<F>(rt, code, held)?;
    print_file::<F>(rt, code, held)
}

// What is known of the file at the front of these symbols without some nodes.
fn print_losses<F: Field>(
    rt: &HostRuntime,
    numbers: (usize, usize, usize, usize),
    symbols: &[u16; SYMBOLS],
    lost: &[usize],
) -> io::Result<()> {
    let code = code_of(numbers)?;
    let mut held = stripe::<F>(&code, symbols);
    lose_nodes(&code, lost, &mut held);
    print_known::<F, _>(rt, &code, Lost(lost), &mut held)
}

// Losses of whole nodes.
fn print_all_losses(rt: &HostRuntime) -> io::Result<()> {
    println!(rt; "Modulo 257, n 5, k 4, m 2, a 1, the file 1 to 8")?;
    print_losses::<Prime>(rt, (5, 4, 2, 1), &COUNTED, &[])?;
    print_losses::<Prime>(rt, (5, 4, 2, 1), &COUNTED, &[0, 1, 4])?;
    println!(rt; "Modulo 257, n 4, k 3, m 2, a 1, a file of zeros")?;
    print_losses::<Prime>(rt, (4, 3, 2, 1), &[0; SYMBOLS], &[0, 2])?;
    println!(rt; "Modulo 257, n 6, k 3, m 4, a 2, the file 1 to 12")?;
    print_losses::<Prime>(rt, (6, 3, 4, 2), &COUNTED, &[0, 3, 4, 5])?;
    println!(rt; "In bytes, n 6, k 3, m 4, a 2, the file 1 to 12")?;
    print_losses::<Bytes>(rt, (6, 3, 4, 2), &COUNTED, &[0, 3, 4, 5])
}

// Each of four nodes left alone.
fn print_single_nodes<F: Field>(rt: &HostRuntime) -> io::Result<()> {
    for lost in [[1, 2, 3], [0, 2, 3], [0, 1, 3], [0, 1, 2]] {
        print_losses::<F>(rt, (4, 2, 2, 2), &COUNTED, &lost)?;
    }
    Ok(())
}

// What is known of the file 1 to 8 where cells, given by node, column and number, are overwritten.
fn print_changes<F: Field>(
    rt: &HostRuntime,
    what: &str,
    changes: &[(usize, usize, u32)],
) -> io::Result<()> {
    let code = code_of((5, 4, 2, 1))?;
    let mut held = counted_stripe::<F>(&code);
    for (node, column, x) in changes {
        if let Some(number) = cell_mut(&code, &mut held, *node, *column) {
            *number = *x;
        }
    }
    print_known::<F, _>(rt, &code, what, &mut held)
}

// Cells that do not fit together, and cells that hold no symbol.
fn print_all_changes(rt: &HostRuntime) -> io::Result<()> {
    println!(rt; "Modulo 257, n 5, k 4, m 2, a 1, the file 1 to 8")?;
    print_changes::<Prime>(rt, "200 at node 2, column 2", &[(2, 2, 200)])?;
    print_changes::<Prime>(rt, "256 at node 3, column 1", &[(3, 1, 256)])?;
    print_changes::<Prime>(rt, "257 at node 3, column 1", &[(3, 1, 257)])?;
    println!(rt; "In bytes, n 5, k 4, m 2, a 1, the file 1 to 8")?;
    print_changes::<Bytes>(rt, "200 at node 2, column 2", &[(2, 2, 200)])?;
    print_changes::<Bytes>(rt, "256 at node 3, column 1", &[(3, 1, 256)])?;
    print_changes::<Bytes>(
        rt,
        "256 at node 3, column 1, and at node 1, column 2",
        &[(3, 1, 256), (1, 2, 256)],
    )?;
    print_changes::<Bytes>(
        rt,
        "65535 at node 4, column 2, and 256 at node 4, column 0",
        &[(4, 2, 65535), (4, 0, 256)],
    )?;
    print_changes::<Bytes>(
        rt,
        "65536, which stands for a lost cell, at node 0, column 0",
        &[(0, 0, 65536)],
    )
}

// The numbers of the work memory that a call uses: k·m rows of k·m + 1.
fn front(code: &Code) -> usize {
    code.file_length() * (code.file_length() + 1)
}

// How much of it a call with that answer clears: nothing where it is refused with 4 or 5.
fn used_by<T>(code: &Code, answer: &Result<T, Refusal>) -> usize {
    match answer {
        Err(Refusal::Work | Refusal::Outside) => 0,
        _ => front(code),
    }
}

// Compares all numbers of the work memory after a call that used so many and left a file at their front.
fn compare_work(work: &[u32], file: &[u16], used: usize, tally: &mut Tally) {
    for (x, number) in work.iter().enumerate() {
        let unused = if x < used { 0 } else { MARK };
        tally.compare(*number, file.get(x).copied().map_or(unused, u32::from));
    }
}

// Asks with so much of the work memory, and compares all of it afterwards, where an answer leaves a file at its
// front. Returns the answer as it is printed, and the tally.
fn ask_room<T, A: FnOnce(&mut [u32], &mut [u32]) -> Result<T, Refusal>>(
    code: &Code,
    room: usize,
    file: &[u16],
    ask: A,
) -> (Told<T>, Tally)
    requires { A.IsAlwaysCallable ask }
{
    let mut held = counted_stripe::<Bytes>(code);
    let mut work = [MARK; WORK];
    let answer = ask(&mut held, &mut work[..room.min(WORK)]);
    let file: &[u16] = if answer.is_ok() { file } else { &[] };
    let mut tally = Tally::new();
    compare_work(&work, file, used_by(code, &answer), &mut tally);
    (Told(answer), tally)
}

// Asks for a place.
fn print_room(
    rt: &HostRuntime,
    code: &Code,
    row: usize,
    column: usize,
    room: usize,
) -> io::Result<()> {
    let (told, tally) = ask_room(code, room, &[], |held, work| {
        ask_place::<Bytes>(code, held, row, column, work)
    });
    println!(rt; "  row {row}, column {column}, {room} numbers: {told}; work memory: {tally}")
}

// Asks for the whole file, which is 1 to 8.
fn print_file_room(rt: &HostRuntime, code: &Code, room: usize) -> io::Result<()> {
    let (told, tally) = ask_room(code, room, &COUNTED[..8], |held, work| {
        ask_file::<Bytes>(code, held, work)
    });
    let symbols = if told.0.is_ok() { " symbols" } else { "" };
    println!(rt; "  the file, {room} numbers: {told}{symbols}; work memory: {tally}")
}

// How much work memory is needed, and places outside.
fn print_rooms(rt: &HostRuntime) -> io::Result<()> {
    let code = code_of((5, 4, 2, 1))?;
    println!(rt; "Work memory, in bytes, n 5, k 4, m 2, a 1, so that 72 numbers are needed")?;
    for (row, column, room) in [
        (3, 1, 0),
        (3, 1, 71),
        (3, 1, 72),
        (3, 1, 73),
        (3, 1, 450),
        (4, 0, 72),
        (0, 2, 72),
        (4, 2, 71),
    ] {
        print_room(rt, &code, row, column, room)?;
    }
    for room in [71, 72, 450] {
        print_file_room(rt, &code, room)?;
    }
    Ok(())
}

// Numbers that look random: each is the upper half of a state, and the next state is a product and a sum
// modulo 2^32. Not the states of trial's fill_file: the cases looked through are those of these numbers.
#[derive(Clone, Debug, Drop)]
struct Random(u32);

impl Random {
    // A number below the bound.
    fn below(&mut self, bound: u32) -> u32
        requires { 0 < bound }
        ensures { result < bound }
    {
        self.0 = self.0.wrapping_mul(1664525).wrapping_add(1013904223);
        self.0 / 65536 % bound
    }

    // Whether something happens that happens `many` times in eight.
    fn happens(&mut self, many: u32) -> bool {
        self.below(8) < many
    }

    // A symbol of the field.
    fn symbol<F: Field>(&mut self) -> u16 {
        // below F::SIZE, at most 257, so the cast loses nothing
        self.below(F::SIZE) as u16
    }
}

// What was seen in the cases of one code.
#[derive(Clone, Copy, Debug)]
struct Seen {
    determined: u32,
    ambiguous: u32,
    contradictory: u32,
    foreign: u32,
    // the places that all fitting files share although there are several such files
    shared: u32,
    places: Tally,
    files: Tally,
    work: Tally,
}

impl Seen {
    fn new() -> Self {
        Seen {
            determined: 0,
            ambiguous: 0,
            contradictory: 0,
            foreign: 0,
            shared: 0,
            places: Tally::new(),
            files: Tally::new(),
            work: Tally::new(),
        }
    }

    // Counts a case with that answer for the file, where so many places are known.
    fn note(&mut self, file: Result<usize, Refusal>, known: u32) {
        let counted = match file {
            Ok(_) => &mut self.determined,
            Err(Refusal::Contradiction) => &mut self.contradictory,
            Err(Refusal::Foreign { .. }) => &mut self.foreign,
            Err(_) => {
                self.shared = self.shared.saturating_add(known);
                &mut self.ambiguous
            }
        };
        *counted = counted.saturating_add(1);
    }

    // Compares each place with what the slow elimination says of its symbol. Returns how many are known.
    fn compare_places<F: Field>(
        &mut self,
        code: &Code,
        held: &mut [u32],
        slow: Result<&Solved, Refusal>,
    ) -> u32 {
        let mut known = 0u32;
        for p in 0..code.file_length() {
            let expected = slow_symbol(slow, p);
            let mut work = [MARK; WORK];
            let (row, column) = (p / code.data_columns(), p % code.data_columns());
            let answer = ask_place::<F>(code, held, row, column, &mut work);
            self.places.compare(answer, expected);
            compare_work(&work, &[], front(code), &mut self.work);
            known = known.saturating_add(u32::from(expected.is_ok()));
        }
        known
    }

    // Compares the whole file.
    fn compare_file<F: Field>(
        &mut self,
        code: &Code,
        held: &mut [u32],
        slow: Result<&Solved, Refusal>,
    ) -> Result<usize, Refusal> {
        let mut file = [0u16; SYMBOLS];
        let length = code.file_length().min(SYMBOLS);
        let expected = slow_file(slow, &mut file[..length]);
        let mut work = [MARK; WORK];
        let answer = ask_file::<F>(code, held, &mut work);
        self.files.compare(answer, expected);
        compare_work(
            &work,
            &file[..expected.unwrap_or(0).min(SYMBOLS)],
            front(code),
            &mut self.work,
        );
        expected
    }

    // Compares one case with the slow elimination.
    fn compare_case<F: Field>(&mut self, code: &Code, held: &mut [u32]) {
        let mut equations = [0u16; EQUATIONS];
        let solved = solve_cells::<F>(code, held, &mut equations);
        let slow = solved.as_ref().map_err(|e| *e);
        let known = self.compare_places::<F>(code, held, slow);
        let file = self.compare_file::<F>(code, held, slow);
        self.note(file, known);
    }
}

// What the slow elimination says of symbol p.
fn slow_symbol(slow: Result<&Solved, Refusal>, p: usize) -> Result<u16, Refusal> {
    slow?.unknown(p).ok_or(Refusal::Ambiguous)
}

// What it says of the whole file, which it writes. Returns its length.
fn slow_file(slow: Result<&Solved, Refusal>, file: &mut [u16]) -> Result<usize, Refusal> {
    for (p, symbol) in file.iter_mut().enumerate() {
        *symbol = slow_symbol(slow, p)?;
    }
    Ok(file.len())
}

// The stripe of a random file.
fn random_stripe<F: Field>(code: &Code, random: &mut Random) -> [u32; CELLS] {
    let mut file = [0u16; SYMBOLS];
    file.fill_with(|| random.symbol::<F>());
    stripe::<F>(code, &file)
}

// The node and the column of a random cell.
fn random_cell(code: &Code, random: &mut Random) -> (usize, usize) {
    // both numbers are below 65,536, so the casts lose nothing
    let node = random.below(65536) as usize % code.nodes();
    let column = random.below(65536) as usize % code.columns();
    (node, column)
}

// Adds a symbol other than 0 to a random cell.
fn change_symbol<F: Field>(code: &Code, random: &mut Random, held: &mut [u32]) {
    let (node, column) = random_cell(code, random);
    let by = random.below(F::SIZE - 1) + 1;
    if let Some(number) = cell_mut(code, held, node, column) {
        *number = number.saturating_add(by) % F::SIZE;
    }
}

// Puts a number that is no symbol into a random cell.
fn spoil_cell<F: Field>(code: &Code, random: &mut Random, held: &mut [u32]) {
    let (node, column) = random_cell(code, random);
    let spoilt = F::SIZE + random.below(1000);
    if let Some(number) = cell_mut(code, held, node, column) {
        *number = spoilt;
    }
}

// Puts a random symbol into each cell.
fn fill_symbols<F: Field>(random: &mut Random, held: &mut [u32]) {
    held.fill_with(|| u32::from(random.symbol::<F>()));
}

// Loses each node `nodes` times in eight, and then each cell `cells` times in eight.
fn lose_some(code: &Code, random: &mut Random, nodes: u32, cells: u32, held: &mut [u32]) {
    for row in held.chunks_exact_mut(code.columns()).take(code.nodes()) {
        let whole = random.happens(nodes);
        for number in row {
            if whole || random.happens(cells) {
                *number = 65536 + random.below(65536);
            }
        }
    }
}

// A random case: a stripe, often with a change, and random losses.
fn random_case<F: Field>(code: &Code, random: &mut Random) -> [u32; CELLS] {
    let mut held = random_stripe::<F>(code, random);
    // The number drawn picks the change, in the order of the stored output.
    match random.below(10) {
        0 | 1 => change_symbol::<F>(code, random, &mut held),
        2 => fill_symbols::<F>(random, &mut held),
        3 | 4 => spoil_cell::<F>(code, random, &mut held),
        _ => {}
    }
    let nodes = random.below(8);
    let cells = random.below(5);
    lose_some(code, random, nodes, cells, &mut held);
    held
}

// The random cases of one code.
fn print_random<F: Field>(
    rt: &HostRuntime,
    numbers: (usize, usize, usize, usize),
    random: &mut Random,
) -> io::Result<()> {
    let (n, k, m, a) = numbers;
    let code = code_of(numbers)?;
    let mut seen = Seen::new();
    for _case in 0..CASES {
        let mut held = random_case::<F>(&code, random);
        seen.compare_case::<F>(&code, &mut held);
    }
    println!(rt;
        "  n {n}, k {k}, m {m}, a {a}: {CASES} cases; no symbol in a cell in {}, contradictory {},",
        seen.foreign, seen.contradictory
    )?;
    println!(rt;
        "    determined {}, ambiguous {}, with {} places known in these.",
        seen.determined, seen.ambiguous, seen.shared
    )?;
    println!(rt; "    places: {}; files: {}", seen.places, seen.files)?;
    println!(rt; "    numbers of the work memory: {}", seen.work)
}

// The random cases in one field.
fn print_all_random<F: Field>(rt: &HostRuntime, seed: u32) -> io::Result<()> {
    let mut random = Random(seed);
    for numbers in [
        (2, 1, 1, 1),
        (4, 2, 2, 2),
        (4, 3, 2, 1),
        (5, 4, 2, 1),
        (6, 3, 4, 2),
        (7, 5, 4, 3),
        (8, 4, 5, 3),
    ] {
        print_random::<F>(rt, numbers, &mut random)?;
    }
    Ok(())
}

// What the output is about, for a reader who has seen nothing else. Its lines are as long as they are printed.
fn print_introduction(rt: &HostRuntime) -> io::Result<()> {
    println!(rt;
        "A file of k rows of m symbols is laid over n nodes, each with m data cells and a coded cells. A file fits what the"
    )?;
    println!(rt;
        "nodes hold if its stripe agrees with every present cell. The solver gives the symbol that all fitting files share at"
    )?;
    println!(rt;
        "a row and a column, or the only fitting file. It refuses with 4 where the work memory is too small, with 5 where the"
    )?;
    println!(rt;
        "place is outside, with 7 where a present cell holds no symbol of the field, with 9 where no file fits, and with 10"
    )?;
    println!(rt; "where two fitting files differ.")?;
    println!(rt)
}

fn main(rt: HostRuntime) -> io::Result<()> {
    print_introduction(&rt)?;
    print_all_losses(&rt)?;
    println!(rt; "Modulo 257, n 4, k 2, m 2, a 2, the file 1 to 4")?;
    print_single_nodes::<Prime>(&rt)?;
    println!(rt; "In bytes, n 4, k 2, m 2, a 2, the file 1 to 4")?;
    print_single_nodes::<Bytes>(&rt)?;
    print_all_changes(&rt)?;
    print_rooms(&rt)?;
    println!(rt; "Random cells, compared with a slow elimination of all symbols, modulo 257")?;
    print_all_random::<Prime>(&rt, 257)?;
    println!(rt; "The same in bytes")?;
    print_all_random::<Bytes>(&rt, 256)
}
