// The test of one vertex by the marks of its successors.
ghost use Rattle.player.specs.promise.Named.{bit_of};
ghost use Rattle.storage.specs.promise.Answer.{mark_of};
ghost use Rattle.storage.specs.parts.Answers.{AllMarked, Chooses};

use crate::Winner;
use crate::answer::mark;
use player::Player;

// The test of one vertex by its stretch and the winners: the first successor marked for the owner.
pub fn test_vertex(owner: Player, stretch: &[u16], winners: &[Winner]) -> Option<u16>
    requires { AllMarked stretch.now winners.now }
    ensures { Chooses (bit_of owner) (mark_of winners.now) stretch.now result }
{
    let bit = u8::from(owner);
    for &w in stretch {
        if mark(winners, usize::from(w)) == bit {
            return Some(w);
        }
    }
    None
}
