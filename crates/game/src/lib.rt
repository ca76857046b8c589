// The tables of a game: owners and priorities are bytes, starts and targets 16-bit numbers.
#![tactic(auto)]

pub mod buffers;
pub mod tables;
pub mod vertex;

// The most vertices and the most edges that a game may have, and what stands for none in a cell: no move, nobody behind. C lends those cells.
pub const VERTICES: usize = 2048;

pub const EDGES: usize = 16384;

pub const NONE: u16 = 65535;
