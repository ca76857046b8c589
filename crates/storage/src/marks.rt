// Row 11: marks that no player has.
ghost use Rattle.refusal.specs.parts.Found.{Finds};
ghost use Rattle.storage.specs.promise.Faults.{Fault11};
ghost use Rattle.storage.specs.parts.Answers.{Stored};

use crate::Winner;
use crate::answer::mark;
use player::Player;

// 11: a mark that is neither 0 nor 1. Apart from `faults::owner`, which asks it of bytes: how marks are stored is this room's alone.
pub fn strange_mark(n: usize, winners: &[Winner]) -> Option<usize>
    requires { Stored n winners.now }
    ensures { Finds (Fault11 n winners.now) result }
{
    for v in 0..n {
        if Player::try_from(mark(winners, v)).is_err() {
            return Some(v);
        }
    }
    None
}
