//! The record of a card.
ghost use Rattle.std.specs.Prelude.{◌≡◌, ◌≤◌, true, length, take};
ghost use Rattle.commands.specs.Commands.{all_bytes, all_inside, commands_in};

use store::Shape;

// No Debug: it would print all bytes that are lent.

/// A store over bytes that its owner lends. The first `used` of them are whole commands on cells inside,
/// and the rest is free.
#[derive(Drop)]
pub struct Card<'a> {
    pub(crate) bytes: &'a mut [u8],
    // a length beside the bytes, since the memory is lent and nothing is allocated
    pub(crate) used: usize,
    pub(crate) shape: Shape,
    ghost room: { used ≤ length bytes.now },
    ghost whole: { take used bytes.now ≡ all_bytes (commands_in (take used bytes.now)) },
    ghost inside: { all_inside shape.nodes shape.columns (commands_in (take used bytes.now)) ≡ true },
}
