// The lengths of winners, moves and work space. Lengths and no lists, which are lent in one way here and in another there.
ghost use Rattle.std.specs.Prelude.{◌≤◌};
ghost use Rattle.refusal.specs.parts.Found.{Finds};
ghost use Rattle.game.specs.promise.Lent.{Fault8};
ghost use Rattle.storage.specs.promise.Lent.{lent_sizes};

use crate::answer::cells;
use game::buffers::compare;

// 8: winners, moves and work space of n vertices.
pub fn lengths(n: usize, winners: usize, moves: usize, work: usize) -> Option<usize>
    requires { n ≤ 2048 }
    ensures { Finds (Fault8 (lent_sizes n winners moves work)) result }
{
    let space = compare(None, work, 4 * n);
    let moved = compare(space, moves, n);
    compare(moved, winners, cells(n))
}
