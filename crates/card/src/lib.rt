//! A store whose memory is a list of commands.
#![tactic(auto)]

ghost use Rattle.std.specs.Prelude.{◌≡◌, ◌+◌, ◌≤◌, [], length, take, None, if◌then◌else◌};
ghost use Rattle.std.specs.List.{fold};
ghost use Rattle.store.specs.Meaning.{Blank, Same, allowed};
ghost use Rattle.store.specs.Sizes.{counted_columns, counted_nodes};
ghost use Rattle.store.specs.Shown.{same_spares};
ghost use Rattle.commands.specs.Commands.{commands_in, card, is_on, value_of, Inside, Longest, TakenUp};
ghost use Rattle.card.specs.Cards.{lent_bytes, used_part, meaning_of, Later, PutCommand, Edited, TakesUpAgain};
ghost use Rattle.card.specs.Shown.{card_lawful, card_edits, later_frames, edits_later};

use commands::{Command, Commands, check_card};
use store::{Shape, Store};

mod lent;

pub use lent::Card;

// The bytes of the widest command, W: a change is taken while so many are free.
const WIDEST: usize = 5;

// What the latest command on a cell leaves there, in one walk over all commands.
fn find_cell(bytes: &[u8], j: usize, c: usize) -> Option<u16>
    ensures { result
        ≡ fold (λ found x. if is_on x j c then value_of x else found) None (commands_in bytes.now) }
{
    Commands::new(bytes).fold(None, |found, command| command.leaves(j, c, found))
}

// The length of the longest beginning of the bytes that is made of whole commands on cells inside.
fn good_length(nodes: usize, columns: usize, bytes: &[u8]) -> usize
    ensures { Longest (counted_nodes nodes columns) (counted_columns columns) bytes.now result
        (commands_in (take result bytes.now)) }
{
    // a match: `map_or_else` is no plainer, with the fault's closure before the count's
    match check_card(nodes, columns, bytes) {
        Ok(_) => bytes.len(),
        Err(fault) => fault.place(),
    }
}

impl<'a> Card<'a> {
    /// A card with no commands. The bytes stay as they are, and all of them are free.
    pub fn blank(nodes: usize, columns: usize, memory: &'a mut [u8]) -> Card<'a>
        ensures means { meaning_of result
            ≡ card [] (counted_nodes nodes columns) (counted_columns columns) (length memory.old) }
        ensures blank { Blank (meaning_of result) }
        ensures held { (lent_bytes result ≡ memory.old) × (used_part result ≡ []) }
        ensures named { result.bytes.ghost_name ≡ memory.entry.ghost_name }
    {
        Card {
            bytes: memory,
            used: 0,
            shape: Shape::counted(nodes, columns),
        }
    }

    /// A card with the commands that the memory begins with, as far as they are whole and on cells inside.
    /// The rest of the bytes is free.
    pub fn take_up(nodes: usize, columns: usize, memory: &'a mut [u8]) -> Card<'a>
        ensures taken { TakenUp (counted_nodes nodes columns) (counted_columns columns) memory.old result.used
            (meaning_of result) }
        ensures held { lent_bytes result ≡ memory.old }
        ensures named { result.bytes.ghost_name ≡ memory.entry.ghost_name }
    {
        let used = good_length(nodes, columns, memory);
        Card {
            bytes: memory,
            used,
            shape: Shape::counted(nodes, columns),
        }
    }

    /// The bytes of the card's commands.
    pub fn used_part(&self) -> &[u8]
        ensures part { result.now ≡ used_part self.now }
        ensures again { TakesUpAgain self.now result.now }
    {
        &self.bytes[..self.used]
    }

    // Whether a change of cell (j, c) is taken.
    fn takes(&self, j: usize, c: usize) -> bool
        ensures { result ≡ allowed (meaning_of self.now) j c }
    {
        self.shape.has(j, c) && self.bytes.len() - self.used >= WIDEST
    }

    // Puts the bytes of a command behind the used part.
    fn append(&mut self, x: Command)
        requires inside { Inside self.old.shape.nodes self.old.shape.columns x }
        requires room { self.old.used + 5 ≤ length (lent_bytes self.old) }
        ensures { PutCommand self.old x self.new }
    {
        let at = self.used;
        match x {
            Command::Write {
                node,
                column,
                symbol,
            } => {
                let [high, low] = symbol.to_be_bytes();
                self.bytes[at..at + 5].copy_from_slice(&[b'W', node, column, high, low]);
                self.used = at + 5;
            }
            Command::Lose { node, column } => {
                self.bytes[at..at + 3].copy_from_slice(&[b'L', node, column]);
                self.used = at + 3;
            }
        }
    }
}

impl<'a> Store for Card<'a> {
    ghost meaning = { meaning_of };

    ghost edited = { Edited };

    ghost declines = { Same };

    ghost frame = { Later };

    ghost lawful = { card_lawful };

    ghost edits = { card_edits };

    ghost frames = { later_frames };

    ghost framed = { edits_later };

    ghost spares = { same_spares meaning_of Later later_frames };

    fn nodes(&self) -> usize {
        self.shape.nodes
    }

    fn columns(&self) -> usize {
        self.shape.columns
    }

    // One walk over the card's commands.
    fn cell(&self, j: usize, c: usize) -> Option<u16> {
        find_cell(self.used_part(), j, c)
    }

    fn allowance(&self) -> usize {
        (self.bytes.len() - self.used) / WIDEST
    }

    fn attempt(&mut self, j: usize, c: usize, v: Option<u16>) -> bool {
        if !self.takes(j, c) {
            return false;
        }
        // the cell is inside, so both fit a byte: `try_from` would have an error that never comes
        let (node, column) = (j as u8, c as u8);
        self.append(match v {
            Some(symbol) => Command::Write {
                node,
                column,
                symbol,
            },
            None => Command::Lose { node, column },
        });
        true
    }
}
