// The writer of the house game file: the tables and the length of the output are tested, then block after block is put.
#![tactic(auto)]

ghost use Rattle.std.specs.Prelude.{◌≡◌};
ghost use Rattle.refusal.specs.parts.Found.{Finds};
ghost use Rattle.game.specs.promise.Lent.{asked, lent};
ghost use Rattle.format.specs.promise.Format.{file_of, plain};
ghost use Rattle.writer.specs.promise.Writing.{Writes, written_said};
ghost use Rattle.writer.specs.parts.Filling.{OtherLength, Fillable};

use encoding::block;
use format::extent::all_blocks;
use game::tables::Tables;
use refusal::{FileFault, Kind, Refusal, refuse};
use tables::test_tables;

// 46, by whole blocks: a length may be of any size, and nothing overflows.
fn output(n: usize, m: usize, long: usize) -> Option<usize>
    ensures { Finds (OtherLength n m long) result }
{
    (long % 512 != 0 || long / 512 != all_blocks(n, m)).then_some(0)
}

// Each block is lent the part of the output that is its own. By the block's number, since the law that puts a part back speaks of it (docs/DECISIONS.md,
// Writing).
fn fill(tables: Tables, file: &mut [u8])
    requires { Fillable (asked tables) file.old }
    ensures { file.new ≡ file_of (plain (lent tables)) }
{
    let blocks = file.len() / 512;
    for b in 0..blocks {
        let from = 512 * b;
        let part = &mut file[from..from + 512];
        block(tables, b, part);
    }
}

// 1 to 7, then 46: the output is written only once every refusal is excluded. Gives how many bytes the file has.
pub fn write(tables: Tables, file: &mut [u8]) -> Result<usize, Refusal>
    ensures { Writes (lent tables) file.old file.new (written_said result) }
{
    test_tables(tables)?;
    let found = output(tables.owners.len(), tables.targets.len(), file.len());
    refuse(found, Kind::Filed(FileFault::Output))?;
    fill(tables, file);
    Ok(file.len())
}
