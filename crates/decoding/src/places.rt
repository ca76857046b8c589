// What is filed of a vertex and of an edge, and where it stands; a function for each, since each promises its own filed list. `FileSized`, which they ask of
// the bytes, is no type's invariant: they promise for any bytes of which it is known. The divisors are constants, so no division is made at run time.
ghost use Rattle.std.specs.Prelude.{◌≡◌, [], ◌<◌, get_or};
ghost use Rattle.format.specs.promise.Filed.{vertex_place, count_filed, owners_filed, priorities_filed, targets_filed};
ghost use Rattle.format.specs.parts.Tests.{FileSized};
ghost use Rattle.decoding.specs.parts.Places.{VertexPlace, EdgePlace, first_target};

use format::bytes::{vertices, word};
use format::extent::vertex_blocks;

fn vertex_place(v: usize) -> usize
    requires { v < 2048 }
    ensures { result ≡ vertex_place [] v }
{
    512 * (1 + v / 126) + 6 + 4 * (v % 126)
}

pub fn owner(file: &[u8], v: usize) -> u8
    requires { VertexPlace file.now v }
    ensures { result ≡ get_or (owners_filed file.now) v 0 }
{
    file[vertex_place(v)]
}

pub fn priority(file: &[u8], v: usize) -> u8
    requires { VertexPlace file.now v }
    ensures { result ≡ get_or (priorities_filed file.now) v 0 }
{
    file[vertex_place(v) + 1]
}

pub fn count(file: &[u8], v: usize) -> u16
    requires { VertexPlace file.now v }
    ensures { result ≡ count_filed file.now v }
{
    word(file, vertex_place(v) + 2)
}

// The first block of targets.
pub fn first_target(file: &[u8]) -> usize
    requires { FileSized file.now }
    ensures { result ≡ first_target file.now }
{
    1 + vertex_blocks(vertices(file))
}

pub fn target(file: &[u8], first: usize, e: usize) -> u16
    requires { EdgePlace file.now first e }
    ensures { result ≡ get_or (targets_filed file.now) e 0 }
{
    word(file, 512 * (first + e / 252) + 6 + 2 * (e % 252))
}
