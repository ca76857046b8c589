// A block's own tests: its check (42), its number and kind (43), its other bytes (44). Each takes the whole file and the block's place: a promise speaks of the
// file's bytes. That the block is there is asked each time, and no type holds it: these functions promise for any file that has the block.
#![tactic(auto)]

ghost use Rattle.std.specs.Prelude.{◌+◌, ◌≤◌, length};
ghost use Rattle.refusal.specs.parts.Found.{Finds};
ghost use Rattle.refusal.specs.promise.Number.{tested_said};
ghost use Rattle.refusal.specs.promise.Row.{Gives};
ghost use Rattle.format.specs.promise.Faults.{Fault42, Fault43, Fault44, block_rows};
ghost use Rattle.format.specs.parts.Tests.{Present};
ghost use Rattle.block.specs.parts.Bytes.{Stain};

use format::bytes::{edges, rule, vertices, word};
use format::extent::{kind_of, used_of};
use format::weight::check_of;
use refusal::{FileFault, Kind, Refusal, refuse};

// 42: the block's check.
fn check(file: &[u8], b: usize) -> Option<usize>
    requires { Present file.now b }
    ensures { Finds (Fault42 file.now b) result }
{
    let from = 512 * b;
    (check_of(file, from) != word(file, from + 510)).then_some(b)
}

// 43: the block's number or kind.
fn kind(file: &[u8], b: usize) -> Option<usize>
    requires { Present file.now b }
    ensures { Finds (Fault43 file.now b) result }
{
    let from = 512 * b;
    let right = usize::from(word(file, from)) == b
        && file[from + 2] == kind_of(vertices(file), b) as u8;
    (!right).then_some(b)
}

// The first payload byte from `used` on that is not zero.
fn stain(file: &[u8], from: usize, used: usize) -> Option<usize>
    requires { from + 512 ≤ length file.now }
    ensures { Finds (Stain file.now from used) result }
{
    (used..504).find(|&k| file[from + 6 + k] != 0)
}

// 44: the block's other bytes.
fn others(file: &[u8], b: usize) -> Option<usize>
    requires { Present file.now b }
    ensures { Finds (Fault44 file.now b) result }
{
    let from = 512 * b;
    let used = used_of(vertices(file), edges(file), b);
    let right = file[from + 3] == 0
        && usize::from(word(file, from + 4)) == used
        && (b != 0 || rule(file) <= 1);
    if !right {
        return Some(b);
    }
    stain(file, from, used).and(Some(b))
}

// The rows of one block, in their order. None of the tests needs another to have passed.
pub fn block(file: &[u8], b: usize) -> Result<(), Refusal>
    requires { Present file.now b }
    ensures { Gives (block_rows file.now b) (tested_said result) }
{
    refuse(check(file, b), Kind::Filed(FileFault::Check))?;
    refuse(kind(file, b), Kind::Filed(FileFault::Kind))?;
    refuse(others(file, b), Kind::Filed(FileFault::Bytes))
}
