//! The commands of a card as bytes, a walk over them, and the check of a card.
#![tactic(auto)]

ghost use Rattle.std.specs.Prelude.{◌≡◌, ◌++◌, [], true, Some, if◌then◌else◌, MatchResult, MatchOption};
ghost use Rattle.store.specs.Sizes.{counted_columns, counted_nodes};
ghost use Rattle.commands.specs.Commands.{node_of, column_of, value_of, is_on, bytes_of, commands_in};
ghost use Rattle.commands.specs.Commands.{TwoBytes, ReadsBack, OneReading};
ghost use Rattle.commands.specs.Walk.{commands_left, CutOff};
ghost use Rattle.commands.specs.Faults.{number, place, text, Begins, Faulty, Checked, Agrees};

use std::error::Error;
use std::fmt;
use store::Shape;

mod command;

pub use command::{CardFault, Command, Commands};

impl CardFault {
    /// The fault's number, 21 to 23.
    pub fn number(&self) -> u8
        ensures { result ≡ number self.now }
    {
        match self {
            CardFault::Letter { .. } => 21,
            CardFault::Short { .. } => 22,
            CardFault::Outside { .. } => 23,
        }
    }

    /// The place of the first byte of the faulty command.
    pub fn place(&self) -> usize
        ensures { result ≡ place self.now }
    {
        match self {
            CardFault::Letter { at } | CardFault::Short { at } | CardFault::Outside { at } => *at,
        }
    }
}

impl fmt::Display for CardFault {
    ghost output = { λ e. Some (text e) };

    fn fmt<W: fmt::Write>(&self, f: &mut fmt::Formatter<W>) -> fmt::Result {
        write!(f, "fault {} at place {}", self.number(), self.place())
    }
}

impl Error for CardFault {}

impl Command {
    /// The command's node.
    pub fn node(&self) -> usize
        ensures { result ≡ node_of self.now }
    {
        match self {
            Command::Write { node, .. } | Command::Lose { node, .. } => usize::from(*node),
        }
    }

    /// The command's column.
    pub fn column(&self) -> usize
        ensures { result ≡ column_of self.now }
    {
        match self {
            Command::Write { column, .. } | Command::Lose { column, .. } => usize::from(*column),
        }
    }

    /// What the command leaves in its cell: a symbol, or `None` for a lost cell.
    pub fn value(&self) -> Option<u16>
        ensures { result ≡ value_of self.now }
    {
        match self {
            Command::Write { symbol, .. } => Some(*symbol),
            Command::Lose { .. } => None,
        }
    }

    /// What cell (j, c) holds after the command, where it held `before`.
    pub fn leaves(&self, j: usize, c: usize, before: Option<u16>) -> Option<u16>
        ensures { result ≡ (if is_on self.now j c then value_of self.now else before) }
    {
        if j == self.node() && c == self.column() {
            self.value()
        } else {
            before
        }
    }
}

// The function is public, so it keeps its answer; the theorems are the clauses.

/// Commands written as bytes and read back are the same commands, and bytes can be read in one way only.
/// It holds of all lists of commands, so a card needs no marks between them. The answer is always `true`.
pub fn reading_stands() -> bool
    ensures back { ReadsBack }
    ensures single { OneReading }
    ensures answer { result ≡ true }
{
    true
}

// The command that the bytes begin with, on whatever cell, and the bytes after it.
fn first_command(bytes: &[u8]) -> Option<(Command, &[u8])>
    ensures { MatchOption result (CutOff bytes.now × (commands_in bytes.now ≡ []))
        (λ p. (bytes.now ≡ bytes_of p.0 ++ p.1.now) × TwoBytes (value_of p.0)) }
{
    match bytes {
        [b'W', node, column, high, low, rest @ ..] => Some((
            Command::Write {
                node: *node,
                column: *column,
                symbol: u16::from_be_bytes([*high, *low]),
            },
            rest,
        )),
        [b'L', node, column, rest @ ..] => Some((
            Command::Lose {
                node: *node,
                column: *column,
            },
            rest,
        )),
        _ => None,
    }
}

impl<'a> Commands<'a> {
    /// The commands that the bytes begin with.
    pub fn new(bytes: &'a [u8]) -> Commands<'a>
        ensures { commands_left result ≡ commands_in bytes.now }
    {
        Commands { bytes }
    }
}

impl<'a> Iterator for Commands<'a> {
    ghost use Rattle.std.specs.Iterator.{item_count, YieldsFirst};
    ghost use Rattle.commands.specs.Walk.{commands_left};

    type Item = Command;

    ghost next_gives = { YieldsFirst commands_left };

    ghost remaining = { item_count commands_left };

    fn next(&mut self) -> Option<Command> {
        let (command, rest) = first_command(self.bytes)?;
        self.bytes = rest;
        Some(command)
    }
}

/// The command that the bytes begin with, and the bytes after it. The first byte is at place `at` of a
/// card with so many nodes and columns, so that a walk may start in the middle of a card.
pub fn next_command(
    nodes: usize,
    columns: usize,
    at: usize,
    bytes: &[u8],
) -> Result<(Command, &[u8]), CardFault>
    ensures { MatchResult result (λ p. Begins nodes columns bytes.now p.0 p.1.now)
        (λ f. Faulty nodes columns at bytes.now f) }
{
    match first_command(bytes) {
        Some((command, rest)) if command.node() < nodes && command.column() < columns => {
            Ok((command, rest))
        }
        Some(_) => Err(CardFault::Outside { at }),
        None => match bytes {
            [] | [b'W' | b'L', ..] => Err(CardFault::Short { at }),
            [_, ..] => Err(CardFault::Letter { at }),
        },
    }
}

// How many commands a card of this shape has, or its first fault.
fn count_commands(shape: Shape, bytes: &[u8]) -> Result<usize, CardFault>
    ensures { Checked shape.nodes shape.columns bytes.now result }
{
    // a walk by `while`: an iterator of commands does not tell what is behind it, which is a fault's place
    let mut rest = bytes;
    let mut count = 0usize;
    while !rest.is_empty() {
        let at = bytes.len() - rest.len();
        let (_, after) = next_command(shape.nodes, shape.columns, at, rest)?;
        rest = after;
        count += 1;
    }
    Ok(count)
}

/// Checks a card's bytes: the number of its commands, or the first fault with the place of its first byte.
/// An unknown letter is judged first, then a command cut short, then a cell outside.
pub fn check_card(nodes: usize, columns: usize, bytes: &[u8]) -> Result<usize, CardFault>
    ensures checked { Checked (counted_nodes nodes columns) (counted_columns columns) bytes.now result }
    ensures agrees { Agrees (counted_nodes nodes columns) (counted_columns columns) bytes.now result }
{
    count_commands(Shape::counted(nodes, columns), bytes)
}
