//! Works a grid and a card through the same changes, and shows where each of them ends.
#![tactic(auto)]

ghost use Rattle.std.specs.Prelude.{length, None};
ghost use Rattle.store.specs.Meaning.{Changed};
ghost use Rattle.store.specs.Sizes.{counted_columns, counted_nodes, whole_nodes};
ghost use Rattle.store.specs.Grids.{grid};
ghost use Rattle.store_demo.specs.Lending.{LostInBytes};

use card::Card;
use commands::check_card;
use std::io;
use store::{Grid, Store};

// Writes each cell of five nodes with four columns, loses one cell of each node, and writes one again.
// Returns how many of the changes were taken.
fn work<S: Store>(store: &mut S) -> usize {
    let written = (0..20u16)
        .filter(|i| store.write(usize::from(*i) / 4, usize::from(*i) % 4, *i * 3000))
        .count();
    let lost = (0..5usize).filter(|j| store.lose(*j, *j % 4)).count();
    let again = usize::from(store.write(1, 1, 65535));
    written + lost + again
}

// How many of the cells of five nodes with four columns two stores tell differently.
fn differences<A: Store, B: Store>(a: &A, b: &B) -> usize {
    (0..20usize)
        .filter(|i| a.cell(i / 4, i % 4) != b.cell(i / 4, i % 4))
        .count()
}

// Loses one cell of any store.
fn lose_cell<S: Store>(store: &mut S, j: usize, c: usize) -> bool
    ensures changed { Changed (S.meaning store.old) j c None result (S.meaning store.new) }
    ensures framed { S.frame store.old store.new }
{
    store.lose(j, c)
}

// Loses one cell of the grid that lies in lent memory. What the memory holds afterwards is known, although
// generic code made the change.
fn lose_in_row(nodes: usize, columns: usize, memory: &mut [u32], j: usize, c: usize) -> bool
    ensures { Changed
        (grid memory.old (whole_nodes nodes columns (length memory.old)) (counted_columns columns))
        j c None result
        (grid memory.new (whole_nodes nodes columns (length memory.old)) (counted_columns columns)) }
{
    let mut grid = Grid::take_up(nodes, columns, memory);
    lose_cell(&mut grid, j, c)
}

// Loses one cell of the card that lies in lent memory. The part that taking up uses is kept, and the bytes
// behind the part that is used afterwards are untouched.
fn lose_in_bytes(nodes: usize, columns: usize, memory: &mut [u8], j: usize, c: usize) -> bool
    ensures { LostInBytes (counted_nodes nodes columns) (counted_columns columns) memory.old
        j c result memory.new }
{
    let mut card = Card::take_up(nodes, columns, memory);
    lose_cell(&mut card, j, c)
}

fn show_same_cells(rt: HostRuntime) -> io::Result<()> {
    let mut row = [0u32; 20];
    let mut bytes = [0u8; 128];
    let mut grid = Grid::blank(5, 4, &mut row);
    let mut card = Card::blank(5, 4, &mut bytes);
    let on_grid = work(&mut grid);
    let on_card = work(&mut card);
    let differing = differences(&grid, &card);
    println!(rt; "Of 26 changes the grid took {on_grid} and the card {on_card}.")?;
    println!(rt; "Of 20 cells compared, {differing} differ.")
}

fn show_free_bytes(rt: HostRuntime) -> io::Result<()> {
    let mut four = [0u8; 4];
    let mut five = [0u8; 5];
    let with_four = Card::blank(3, 3, &mut four).lose(0, 0);
    let with_five = Card::blank(3, 3, &mut five).lose(0, 0);
    println!(rt; "A card with 4 free bytes takes a loss: {with_four}.")?;
    println!(rt; "A card with 5 free bytes takes a loss: {with_five}.")
}

fn show_grid(rt: HostRuntime) -> io::Result<()> {
    let mut row = [0u32; 27];
    let grid = Grid::take_up(64, 11, &mut row);
    let nodes = grid.nodes();
    println!(rt; "A grid of 11 columns over 27 numbers has {nodes} nodes.")?;
    let mut numbers = [70000u32; 4];
    let lost = Grid::take_up(2, 2, &mut numbers).cell(0, 1).is_none();
    println!(rt; "A cell whose number is 70000 is lost: {lost}.")?;
    lose_in_row(2, 2, &mut numbers, 0, 1);
    println!(rt; "After a loss of it the number is {}.", numbers[1])?;
    let none = Grid::blank(8, 0, &mut numbers);
    let (nodes, columns, allowance) = (none.nodes(), none.columns(), none.allowance());
    println!(rt;
        "A grid of 8 nodes with 0 columns has {nodes} nodes, {columns} columns and an allowance of {allowance}."
    )
}

fn show_check(rt: HostRuntime, what: &str, bytes: &[u8]) -> io::Result<()> {
    match check_card(4, 3, bytes) {
        Ok(count) => println!(rt; "A card {what} has {count} commands."),
        Err(fault) => println!(rt; "A card {what} has {fault}."),
    }
}

fn show_checks(rt: HostRuntime) -> io::Result<()> {
    show_check(rt, "with no bytes", b"")?;
    show_check(rt, "with a write and a loss", b"W\x01\x02\x12\x34L\x01\x02")?;
    show_check(rt, "with an unknown letter after a loss", b"L\x00\x00w\x09")?;
    show_check(rt, "cut short after a write", b"W\x00\x00\x00\x07W\x09\x09")?;
    show_check(
        rt,
        "with a cell outside after two losses",
        b"L\x00\x00L\x03\x02L\x04\x00",
    )
}

fn show_take_up(rt: HostRuntime) -> io::Result<()> {
    let mut bytes = *b"W\x01\x02\x12\x34L\x00\x00W\x01\x02\x00\x05L\x09\x09L\x01\x02......";
    let card = Card::take_up(4, 3, &mut bytes);
    let used = card.used_part().len();
    let allowance = card.allowance();
    println!(rt; "A card taken up uses {used} bytes and has an allowance of {allowance}.")?;
    match card.cell(1, 2) {
        Some(symbol) => println!(rt;
            "Its cell (1, 2) holds {symbol}, from the latest command on it."
        )?,
        None => println!(rt; "Its cell (1, 2) is lost.")?,
    }
    let taken = lose_in_bytes(4, 3, &mut bytes, 1, 2);
    println!(rt; "A loss of it is taken: {taken}.")?;
    println!(rt;
        "The three bytes behind the 13 are {}, {} and {} now.",
        bytes[13], bytes[14], bytes[15]
    )?;
    let again = Card::take_up(4, 3, &mut bytes);
    let used = again.used_part().len();
    println!(rt;
        "Taken up again, the card uses {used} bytes: an old loss behind the new one is a command again."
    )
}

fn main(rt: HostRuntime) -> io::Result<()> {
    show_same_cells(rt)?;
    show_free_bytes(rt)?;
    show_grid(rt)?;
    show_checks(rt)?;
    show_take_up(rt)
}
