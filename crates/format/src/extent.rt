// How many blocks the vertices and the edges take; a block's kind, and how much of its payload is used.
ghost use Rattle.std.specs.Prelude.{◌≡◌};
ghost use Rattle.format.specs.promise.Format.{vertex_blocks, target_blocks, blocks_of, kind_of, used_of};
ghost use Rattle.format.specs.parts.Tests.{Used};
ghost use Rattle.format.specs.parts.Kinds.{kind_number};

// What a block holds. A file has these numbers in a byte, and another byte there is no kind.
#[derive(Clone, Copy, Debug, PartialEq, Eq)]
pub enum BlockKind {
    // n, the number of edges, the rule.
    Header = 1,
    Vertices = 2,
    Targets = 3,
}

// n and m are two numbers, here and below, which need be no file's header. Two functions, not one over the number in a block: what that number counts is
// in their names.
pub fn vertex_blocks(n: usize) -> usize
    ensures { result ≡ vertex_blocks n }
{
    n.div_ceil(126)
}

pub fn target_blocks(m: usize) -> usize
    ensures { result ≡ target_blocks m }
{
    m.div_ceil(252)
}

pub fn all_blocks(n: usize, m: usize) -> usize
    ensures { result ≡ blocks_of n m }
{
    1 + vertex_blocks(n) + target_blocks(m)
}

// The kind of block b in a file of n vertices.
pub fn kind_of(n: usize, b: usize) -> BlockKind
    ensures { kind_number result ≡ kind_of n b }
{
    if b == 0 {
        BlockKind::Header
    } else if b <= vertex_blocks(n) {
        BlockKind::Vertices
    } else {
        BlockKind::Targets
    }
}

pub fn used_of(n: usize, m: usize, b: usize) -> usize
    requires { Used n m b }
    ensures { result ≡ used_of n m b }
{
    match kind_of(n, b) {
        BlockKind::Header => 5,
        BlockKind::Vertices => (4 * n - 504 * (b - 1)).min(504),
        BlockKind::Targets => (2 * m - 504 * (b - 1 - vertex_blocks(n))).min(504),
    }
}
