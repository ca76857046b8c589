// A reader's tables: of fixed sizes, with room for the largest game. What is read stands at their beginnings.
ghost use Rattle.std.specs.Prelude.{◌≡◌, ◌≤◌};
ghost use Rattle.game.specs.promise.Lent.{asked};
ghost use Rattle.decoding.specs.promise.Holding.{Holding, used_parts};
ghost use Rattle.decoding.specs.parts.Rooms.{whole, blank};

use game::tables::Tables;
use game::{EDGES, VERTICES};

// How many starts the most vertices have: one for each, and one for where the last stretch ends.
pub const STARTS: usize = 2049;

// 41 KB, so it is not to be copied.
#[derive(Drop)]
pub struct Room {
    pub owners: [u8; VERTICES],
    pub priorities: [u8; VERTICES],
    pub starts: [u16; STARTS],
    pub targets: [u16; EDGES],
}

impl Room {
    // Nothing is read yet.
    pub fn blank() -> Room
        ensures { Holding blank (whole result) }
    {
        Room {
            owners: [0; VERTICES],
            priorities: [0; VERTICES],
            starts: [0; STARTS],
            targets: [0; EDGES],
        }
    }

    // The tables of n vertices and m edges that stand at the beginnings.
    pub fn cut(&self, n: usize, m: usize) -> Tables
        requires { (n ≤ 2048) × (m ≤ 16384) }
        ensures { asked result ≡ used_parts n m (whole self.now) }
    {
        Tables {
            owners: &self.owners[..n],
            priorities: &self.priorities[..n],
            starts: &self.starts[..n + 1],
            targets: &self.targets[..m],
        }
    }
}
