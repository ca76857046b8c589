// The predecessors of each vertex, listed once for a game: its edges the other way round.
#![tactic(auto)]

mod build;

pub use build::{Incoming, Predecessors};

// How many numbers say where the vertices' stretches start: one for each vertex, and one for where the last ends.
pub const INS: usize = 2049;
