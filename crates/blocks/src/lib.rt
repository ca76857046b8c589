// The blocks of a file: the header and block 0 (`head`), then each block after it in turn: 42, 43, 44.
#![tactic(auto)]

ghost use Rattle.refusal.specs.promise.Row.{Gives};
ghost use Rattle.refusal.specs.promise.Number.{tested_said};
ghost use Rattle.format.specs.promise.Faults.{turn_rows};
ghost use Rattle.format.specs.parts.Tests.{FileSized};

use block::block;
use format::bytes::{edges, vertices};
use format::extent::all_blocks;
use refusal::Refusal;

pub mod head;

pub fn blocks(file: &[u8]) -> Result<(), Refusal>
    requires { FileSized file.now }
    ensures { Gives (turn_rows file.now) (tested_said result) }
{
    for b in 1..all_blocks(vertices(file), edges(file)) {
        block(file, b)?;
    }
    Ok(())
}
