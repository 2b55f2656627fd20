// A whole round over an array of symbols: it shows how the states are used one after the other.
ghost use Rattle.std.specs.Prelude.{◌*◌, ◌≤◌, [], length};
ghost use Rattle.code.specs.Stripe.{width};
ghost use Rattle.round.specs.States.{Wants};
ghost use Rattle.round.specs.Rebuild.{Rebuilds, OfStripe};
ghost use Rattle.round.specs.Fetching.{Fetching, Fills, Runs};

use crate::state::{Given, Holding, Taken, Wanting};
use code::{Code, MOST_COLUMNS, Refusal};
use field::Field;

/// Rebuilds the symbols of a node from an array with all cells of a code, by node and column, into the
/// front of another array; returns how many symbols the round was given. Refusal 2 where an array is
/// too short, 5 where the node is outside, 6 where a wanted cell has no symbol of the field: then
/// nothing is written.
pub fn rebuild<F: Field>(
    code: &Code,
    node: usize,
    cells: &[u16],
    out: &mut [u16],
) -> Result<usize, Refusal>
    ensures made { Rebuilds F.ops code.now node cells.now out.old out.new result }
    ensures stripe { OfStripe F.ops code.now node cells.now out.old out.new result }
{
    let columns = code.columns();
    if cells.len() < code.nodes() * columns || out.len() < columns {
        return Err(Refusal::Shape);
    }
    let (count, symbols) = run(Wanting::<F>::begin(code, node)?, cells)?;
    out[..columns].copy_from_slice(&symbols[..columns]);
    Ok(count)
}

// Gives a round the symbols for its present column, each from the array. There is no index to go over:
// each turn uses the state that the turn before it made.
fn fill_column<F: Field>(mut round: Wanting<F>, cells: &[u16]) -> Result<Holding<F>, Refusal>
    requires long { round.code.n * width round.code ≤ length cells.now }
    requires so_far { Fetching F.ops round.code round.node cells.now round }
    ensures { Fills F.ops round.code round.node cells.now round.column result }
{
    let columns = round.code.columns();
    loop {
        let (node, column) = round.wanted();
        match round.give(cells[node * columns + column])? {
            Given::Wanting(next) => round = next,
            Given::Holding(holding) => return Ok(holding),
        }
    }
}

// A round from its first symbol to its last: how many it was given, and the symbols taken from it.
fn run<F: Field>(
    mut round: Wanting<F>,
    cells: &[u16],
) -> Result<(usize, [u16; MOST_COLUMNS]), Refusal>
    requires long { round.code.n * width round.code ≤ length cells.now }
    requires begun { Wants F.ops round.code round.node [] round }
    ensures { Runs F.ops round.code round.node cells.now result }
{
    // room for the most columns, of which the code's are used: nothing here allocates
    let mut symbols = [0; MOST_COLUMNS];
    loop {
        let holding = fill_column(round, cells)?;
        let column = holding.column();
        let (symbol, taken) = holding.take();
        symbols[column] = symbol;
        match taken {
            Taken::Wanting(next) => round = next,
            Taken::Over(over) => return Ok((over.given(), symbols)),
        }
    }
}
