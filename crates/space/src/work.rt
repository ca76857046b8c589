// The lent work space: four sections of n cells. The first has a flag or a level for each vertex, the second what a closure has reached, the
// third its queue, the fourth who stands behind each vertex in its waiting line. C lends one list for all four, so a flag is a number and nobody is
// 65,535. A pair of leaves for each, not one generic over the section: `reached(n, v, work)` says what `cell::<1>(n, v, work)` does not.
// n stands beside `work`, and the desk beside both: a struct of them would hold a `&mut`, and every contract a clause more (docs/DECISIONS.md, Forms).
ghost use Rattle.std.specs.Prelude.{◌≡◌, get_or};
ghost use Rattle.space.specs.parts.Work.{section, Cell, CellSet};

// A vertex's flag, or its level.
pub fn flag(n: usize, v: usize, work: &[u16]) -> u16
    requires { Cell n v work.now }
    ensures { result ≡ get_or (section 0 n work.now) v 0 }
{
    work[v]
}

pub fn set_flag(n: usize, v: usize, x: u16, work: &mut [u16])
    requires { Cell n v work.old }
    ensures { CellSet n 0 v x work.old work.new }
{
    work[v] = x;
}

// Whether a closure has reached a vertex.
pub fn reached(n: usize, v: usize, work: &[u16]) -> u16
    requires { Cell n v work.now }
    ensures { result ≡ get_or (section 1 n work.now) v 0 }
{
    work[n + v]
}

pub fn set_reached(n: usize, v: usize, x: u16, work: &mut [u16])
    requires { Cell n v work.old }
    ensures { CellSet n 1 v x work.old work.new }
{
    work[n + v] = x;
}

// A place of the closure's queue.
pub fn queued(n: usize, i: usize, work: &[u16]) -> u16
    requires { Cell n i work.now }
    ensures { result ≡ get_or (section 2 n work.now) i 0 }
{
    work[2 * n + i]
}

pub fn set_queued(n: usize, i: usize, x: u16, work: &mut [u16])
    requires { Cell n i work.old }
    ensures { CellSet n 2 i x work.old work.new }
{
    work[2 * n + i] = x;
}

// Who stands behind a vertex in its waiting line.
pub fn behind(n: usize, v: usize, work: &[u16]) -> u16
    requires { Cell n v work.now }
    ensures { result ≡ get_or (section 3 n work.now) v 0 }
{
    work[3 * n + v]
}

pub fn set_behind(n: usize, v: usize, x: u16, work: &mut [u16])
    requires { Cell n v work.old }
    ensures { CellSet n 3 v x work.old work.new }
{
    work[3 * n + v] = x;
}
