// A courier's tour of thirty stops, kept on eighteen machines: it is laid as a stripe, one machine is
// lost, and a round rebuilds what that machine held from its neighbours.
#![tactic(auto)]

use code::{Code, Refusal};
use encode::{encode, keeps_rules};
use field::Bytes;
use round::{Given, Holding, Taken, Wanting};
use std::io;

const STOPS: usize = 30;

const NODES: usize = 18;

const DATA_NODES: usize = 16;

const DATA_COLUMNS: usize = 2;

const COLUMNS: usize = DATA_COLUMNS + 1;

const SYMBOLS: usize = DATA_NODES * DATA_COLUMNS;

const CELLS: usize = NODES * COLUMNS;

const LOST: usize = 7;

// The minutes from stop to stop, in the order in which they are ridden.
const LEGS: [u16; STOPS] = [
    14, 6, 11, 9, 23, 8, 5, 17, 12, 31, 7, 10, 19, 4, 13, 26, 9, 15, 6, 22, 18, 3, 27, 12, 8, 16,
    41, 5, 20, 11,
];

// What a round brought back: the symbols of the node's columns, how many symbols it was given, and which
// nodes they came from.
#[derive(Drop)]
struct Brought {
    symbols: [u16; COLUMNS],
    given: usize,
    asked: [bool; NODES],
}

// The file of the tour: its leg times, and zeros up to the length of a file.
fn file_of_legs() -> [u16; SYMBOLS] {
    let mut file = [0; SYMBOLS];
    file[..STOPS].copy_from_slice(&LEGS);
    file
}

// Gives the round the two symbols that it wants for one column, and notes the nodes that were asked: for that
// note the program drives the round itself. The range only says when the loop is over: which cell is wanted, the
// round says. The two ends with Outside are not reached: a round wants cells of the code, and two for a column.
fn fetch_column(
    mut round: Wanting<Bytes>,
    cells: &[u16; CELLS],
    asked: &mut [bool; NODES],
) -> Result<Holding<Bytes>, Refusal> {
    for _ in 0..DATA_COLUMNS {
        let (node, column) = round.wanted();
        if node >= NODES || column >= COLUMNS {
            return Err(Refusal::Outside);
        }
        asked[node] = true;
        match round.give(cells[node * COLUMNS + column])? {
            Given::Wanting(next) => round = next,
            Given::Holding(holding) => return Ok(holding),
        }
    }
    Err(Refusal::Outside)
}

// Rebuilds the cells of a node by a round over the cells of the others. Here too the range only says when the
// loop is over: which column is finished, the round says. Nor is the end with Outside reached here: the round is
// over with the last of its columns.
fn run_round(code: &Code, node: usize, cells: &[u16; CELLS]) -> Result<Brought, Refusal> {
    let mut symbols = [0; COLUMNS];
    let mut asked = [false; NODES];
    let mut round = Wanting::<Bytes>::begin(code, node)?;
    for _ in 0..COLUMNS {
        let holding = fetch_column(round, cells, &mut asked)?;
        let column = holding.column();
        let (symbol, taken) = holding.take();
        if column < COLUMNS {
            symbols[column] = symbol;
        }
        match taken {
            Taken::Wanting(next) => round = next,
            Taken::Over(over) => return Ok(Brought {
                symbols,
                given: over.given(),
                asked,
            }),
        }
    }
    Err(Refusal::Outside)
}

// The table of the cells: nodes down, columns across.
fn show(rt: &HostRuntime, cells: &[u16; CELLS]) -> io::Result<()> {
    println!(rt; "  node   column 0   column 1   column 2")?;
    for (node, symbols) in cells.chunks_exact(COLUMNS).enumerate() {
        let (first, second, coded) = (symbols[0], symbols[1], symbols[2]);
        let kind = if node < DATA_NODES { "" } else { "   parity" };
        println!(rt; "  {node:>4}   {first:>8}   {second:>8}   {coded:>8}{kind}")?;
    }
    Ok(())
}

// Says that something was declined, and why.
fn declined(rt: &HostRuntime, what: &str, refusal: Refusal) -> io::Result<()> {
    println!(rt; "The {what} was declined with number {}.", refusal.number())
}

// What the program says of the node that it takes away and rebuilds.
fn lose_and_rebuild(rt: &HostRuntime, code: &Code, cells: &mut [u16; CELLS]) -> io::Result<()> {
    let mut held = [0; COLUMNS];
    let lost = &mut cells[LOST * COLUMNS..(LOST + 1) * COLUMNS];
    held.copy_from_slice(lost);
    lost.fill(0);
    let [first, second, coded] = held;
    println!(rt; "Node {LOST} is lost. It held {first}, {second} and {coded}.")?;
    let brought = match run_round(code, LOST, cells) {
        Ok(brought) => brought,
        Err(refusal) => return declined(rt, "round", refusal),
    };
    println!(rt;
        "A round for node {LOST} took {} symbols from {} other nodes:",
        brought.given,
        brought.asked.iter().filter(|one| **one).count()
    )?;
    for (node, _) in brought.asked.iter().enumerate().filter(|(_, one)| **one) {
        println!(rt; "  node {node}")?;
    }
    let [first, second, coded] = brought.symbols;
    println!(rt; "It made {first}, {second} and {coded} of them.")?;
    if brought.symbols == held {
        println!(rt; "These are the three symbols that were lost.")
    } else {
        println!(rt; "These are not the symbols that were lost.")
    }
}

// What the program says of the stripe of the tour.
fn tell(rt: &HostRuntime, code: &Code) -> io::Result<()> {
    println!(rt;
        "A tour of {STOPS} stops has {STOPS} leg times, in minutes. They are laid over {NODES} nodes."
    )?;
    println!(rt;
        "The first {DATA_NODES} nodes hold two leg times each, in columns 0 and 1; two zeros fill the rest."
    )?;
    println!(rt; "The last two nodes hold parity, and column 2 of every node a coded symbol:")?;
    println!(rt;
        "the sum of column 0 of the node before it and column 1 of the node before that,"
    )?;
    println!(rt; "counted round, where a sum of two bytes is their exclusive or.")?;
    let mut cells = [0; CELLS];
    if let Err(refusal) = encode::<Bytes>(code, &file_of_legs(), &mut cells) {
        return declined(rt, "tour", refusal);
    }
    println!(rt; "")?;
    show(rt, &cells)?;
    println!(rt; "")?;
    match keeps_rules::<Bytes>(code, &cells) {
        Ok(true) => println!(rt; "The {CELLS} cells keep the column rule and the group rule.")?,
        Ok(false) => println!(rt; "The cells break a rule.")?,
        Err(refusal) => declined(rt, "check", refusal)?,
    }
    lose_and_rebuild(rt, code, &mut cells)
}

fn main(rt: HostRuntime) -> io::Result<()> {
    match Code::new(NODES, DATA_NODES, DATA_COLUMNS, 1) {
        Ok(code) => tell(&rt, &code),
        Err(refusal) => declined(&rt, "code", refusal),
    }
}
