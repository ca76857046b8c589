// The four tables as they are filed, the priorities not yet turned. They are set down in blank tables, so that zeros stand past them.
// Each table is a slice, so that one `fill` serves all lengths; blank before and filled after is a fact about a moment, which is no type's invariant.
ghost use Rattle.std.specs.Prelude.{◌≡◌, ◌<◌, ℕ, [], length, slice_index_or};
ghost use Rattle.format.specs.promise.Filed.{owners_filed, priorities_filed, starts_filed, targets_filed};
ghost use Rattle.format.specs.parts.Tests.{FileSized, Summed};
ghost use Rattle.decoding.specs.promise.Holding.{Padded};

use crate::places::{count, first_target, owner, priority, target};
use format::bytes::{edges, vertices};

// Each cell by its place, which is what `value` takes.
fn fill<T: Copy, F: Fn(usize) -> T>(part: &mut [T], value: F)
    requires callable { (k : ℕ) → k < length part.old → F.pre value k }
    ensures long { length part.new ≡ length part.old }
    ensures filled { (k : ℕ) (d : T) → k < length part.old → F.post value k (slice_index_or part.new k d) }
{
    for k in 0..part.len() {
        part[k] = value(k);
    }
}

pub fn owners(file: &[u8], table: &mut [u8])
    requires { FileSized file.now × Padded 2048 [] table.old }
    ensures { Padded 2048 (owners_filed file.now) table.new }
{
    fill(&mut table[..vertices(file)], |v| owner(file, v));
}

pub fn priorities(file: &[u8], table: &mut [u8])
    requires { FileSized file.now × Padded 2048 [] table.old }
    ensures { Padded 2048 (priorities_filed file.now) table.new }
{
    fill(&mut table[..vertices(file)], |v| priority(file, v));
}

// The first start is the zero that stands there. Each is a running sum, so the loop stands here and not in `fill`.
pub fn starts(file: &[u8], table: &mut [u16])
    requires { Summed file.now × Padded 2049 [] table.old }
    ensures { Padded 2049 (starts_filed file.now) table.new }
{
    let mut sum: u16 = 0;
    for v in 0..vertices(file) {
        sum += count(file, v);
        table[v + 1] = sum;
    }
}

pub fn targets(file: &[u8], table: &mut [u16])
    requires { FileSized file.now × Padded 16384 [] table.old }
    ensures { Padded 16384 (targets_filed file.now) table.new }
{
    let first = first_target(file);
    fill(&mut table[..edges(file)], |e| target(file, first, e));
}
