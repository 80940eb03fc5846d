//! A script that is read as far as some line.
ghost use Rattle.std.specs.Prelude.{◌≤◌, vec_len};

use lab_lines::{CardLine, ClientLine, Item, Line, ReaderLine};

/// What is read of a script: its card, clients, readers and body; the number of the line of a phase
/// that isn't ended, and its lines; how many phases there are, how many frames the card plays in all
/// of them, and whether it is unplugged.
#[derive(Drop)]
pub struct Draft {
    pub card: CardLine,
    pub clients: Vec<ClientLine>,
    pub readers: Vec<ReaderLine>,
    pub body: Vec<Item>,
    pub phase: Option<u32>,
    pub lines: Vec<Line>,
    pub phases: u32,
    pub played: u32,
    pub gone: bool,
    ghost few_clients: { vec_len clients ≤ 64 },
    ghost few_readers: { vec_len readers ≤ 64 },
    ghost few_phases: { phases ≤ 4096 },
    ghost few_frames: { played ≤ 4194304 },
}
