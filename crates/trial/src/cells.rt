// What the present cells of a stripe say of its file, found by eliminating all symbols from all present cells.
ghost use Rattle.std.specs.Prelude.{◌≡◌, ◌*◌, ◌<◌, ◌≤◌, Err, IfOk, length, position};
ghost use Rattle.code.specs.declared.refusal.Refusal.TheVariants.{Work};
ghost use Rattle.trial.specs.Cells.{Refuses, foreign, room};
ghost use Rattle.trial.specs.Rows.{Consistent};

use crate::elimination::{Solved, eliminate};
use code::{Code, MOST_CELLS, MOST_SYMBOLS, Refusal};
use encode::encode;
use field::Field;

/// How many numbers `solve_cells` takes: an equation for each cell, of a factor for each symbol and what the cell
/// holds.
pub fn room(code: &Code) -> usize
    ensures { result ≡ room code.now }
{
    code.nodes() * code.columns() * (code.file_length() + 1)
}

// The stripe of the file that is 1 at one symbol and 0 elsewhere.
fn unit_stripe<F: Field>(code: &Code, p: usize) -> [u16; MOST_CELLS] {
    let mut file = [0u16; MOST_SYMBOLS];
    let mut stripe = [0u16; MOST_CELLS];
    if let Some(symbol) = file.get_mut(p) {
        *symbol = 1;
    }
    // never declined: the file has the code's length, the memory has room, and 0 and 1 are symbols
    let _ = encode::<F>(code, &file[..code.file_length()], &mut stripe);
    stripe
}

// Whether a cell is present. The numbers lie as a grid holds them, and there a cell is lost whose number is no u16.
fn is_present(number: u32) -> bool {
    number < 65536
}

// How many of the cells are present.
fn count_present(cells: &[u32]) -> usize
    ensures { result ≤ length cells.now }
{
    cells.iter().filter(|number| is_present(**number)).count()
}

// An equation for each present cell: the factors of the symbols in it, and what it holds.
fn fill_equations<F: Field>(code: &Code, cells: &[u32], numbers: &mut [u16])
    ensures { length numbers.new ≡ length numbers.old }
{
    let length = code.file_length();
    // By number: p is a symbol, of whose stripe column p of the equations is written.
    for p in 0..length {
        let stripe = unit_stripe::<F>(code, p);
        let present = cells
            .iter()
            .zip(&stripe)
            .filter(|(number, _)| is_present(**number));
        for (row, (_, factor)) in numbers.chunks_exact_mut(length + 1).zip(present) {
            if let Some(x) = row.get_mut(p) {
                *x = *factor;
            }
        }
    }
    let present = cells
        .iter()
        .filter_map(|number| u16::try_from(*number).ok());
    for (row, value) in numbers.chunks_exact_mut(length + 1).zip(present) {
        if let Some(x) = row.last_mut() {
            *x = value;
        }
    }
}

/// Solves for what the cells hold, cell (j, c) at j·(m + a) + c, as the numbers of a grid lie: a number above
/// 65,535 stands for a lost cell, and cells that are not there are lost. Refused with 7, and the first such
/// cell, where a present cell holds no symbol of the field, and with 9 where an equation without factors is left
/// whose right side is not 0. That the equations keep their solutions on the way is not stated: the programs try
/// it. The equations are written into the numbers that the caller lends, and what is solved stands there; refused
/// with 4, before all else, where these are fewer than `room` asks for.
pub fn solve_cells<'a, F: Field>(
    code: &Code,
    held: &[u32],
    numbers: &'a mut [u16],
) -> Result<Solved<'a>, Refusal>
    ensures short { length numbers.old < room code.now → result ≡ Err Work }
    ensures refuses { room code.now ≤ length numbers.old → Refuses F.ops.q code.now held.now result }
    ensures unknowns { IfOk result (λ solved. solved.unknowns ≡ code.now.k * code.now.m) }
    ensures consistent { IfOk result (λ solved.
        Consistent solved.unknowns solved.numbers.now solved.rank solved.count) }
{
    if numbers.len() < room(code) {
        return Err(Refusal::Work);
    }
    let count = code.nodes() * code.columns();
    let cells = &held[..count.min(held.len())];
    if let Some(x) = first_foreign::<F>(cells) {
        return Err(Refusal::Foreign {
            node: x / code.columns(),
            column: x % code.columns(),
        });
    }
    fill_equations::<F>(code, cells, numbers);
    let length = code.file_length();
    let equations = &mut numbers[..count_present(cells) * (length + 1)];
    let solved = eliminate::<F>(equations, length);
    if solved.contradiction().is_some() {
        return Err(Refusal::Contradiction);
    }
    Ok(solved)
}

// The first of the cells whose number is no symbol.
fn first_foreign<F: Field>(cells: &[u32]) -> Option<usize>
    ensures { result ≡ position (foreign F.ops.q) cells.now }
{
    cells.iter().position(|x| F::SIZE <= *x && *x < 65536)
}
