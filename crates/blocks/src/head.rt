// What is tested before the blocks are gone through: 41, block 0's 42, 43 and 44, 1, 41.
ghost use Rattle.std.specs.Prelude.{◌≤◌, length};
ghost use Rattle.refusal.specs.parts.Found.{Finds};
ghost use Rattle.refusal.specs.promise.Number.{tested_said};
ghost use Rattle.refusal.specs.promise.Row.{Gives};
ghost use Rattle.format.specs.promise.Faults.{Fault41Short, FaultSizes, Fault41Length, head_rows};

use block::block;
use format::bytes::{edges, vertices};
use format::extent::all_blocks;
use game::{EDGES, VERTICES};
use refusal::{FileFault, Kind, Refusal, TableFault, refuse};

// 41: under one block.
fn short(file: &[u8]) -> Option<usize>
    ensures { Finds (Fault41Short file.now) result }
{
    (file.len() < 512).then_some(file.len() / 512)
}

// 1: the numbers of vertices and edges.
fn sizes(file: &[u8]) -> Option<usize>
    requires { 512 ≤ length file.now }
    ensures { Finds (FaultSizes file.now) result }
{
    let fit = (1..=VERTICES).contains(&vertices(file)) && edges(file) <= EDGES;
    (!fit).then_some(0)
}

// 41: the exact length.
fn extent(file: &[u8]) -> Option<usize>
    requires { 512 ≤ length file.now }
    ensures { Finds (Fault41Length file.now) result }
{
    let blocks = all_blocks(vertices(file), edges(file));
    (file.len() != 512 * blocks).then_some(file.len() / 512)
}

// The other tests read the header, so a file too short for one is refused first.
pub fn head(file: &[u8]) -> Result<(), Refusal>
    ensures { Gives (head_rows file.now) (tested_said result) }
{
    refuse(short(file), Kind::Filed(FileFault::Length))?;
    block(file, 0)?;
    refuse(sizes(file), Kind::Game(TableFault::Sizes))?;
    refuse(extent(file), Kind::Filed(FileFault::Length))
}
