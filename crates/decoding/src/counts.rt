// 45: the successor counts against the number of edges.
ghost use Rattle.refusal.specs.parts.Found.{Finds};
ghost use Rattle.format.specs.promise.Faults.{Fault45};
ghost use Rattle.format.specs.parts.Tests.{FileSized};
ghost use Rattle.decoding.specs.parts.Places.{Totals};

use crate::places::count;
use format::bytes::{edges, vertices};

// The sum of all successor counts.
fn total(file: &[u8]) -> usize
    requires { FileSized file.now }
    ensures { Totals file.now result }
{
    let mut sum: usize = 0;
    for v in 0..vertices(file) {
        sum += usize::from(count(file, v));
    }
    sum
}

pub fn counts(file: &[u8]) -> Option<usize>
    requires { FileSized file.now }
    ensures { Finds (Fault45 file.now) result }
{
    (total(file) != edges(file)).then_some(0)
}
