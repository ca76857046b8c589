// Row 13: a loser's ways out. A mark is a number, as its cell is: what is asked is whether two are alike.
ghost use Rattle.refusal.specs.parts.Found.{Finds};
ghost use Rattle.refusal.specs.parts.Says.{Says};
ghost use Rattle.player.specs.promise.Named.{bit_of};
ghost use Rattle.game.specs.promise.Tables.{game_of};
ghost use Rattle.game.specs.promise.Lent.{asked, lent};
ghost use Rattle.storage.specs.promise.Answer.{mark_of, move_of};
ghost use Rattle.storage.specs.promise.Lent.{claim, claimed};
ghost use Rattle.storage.specs.parts.Answers.{AllMarked};
ghost use Rattle.winning.specs.promise.Faults.{Fault13};
ghost use Rattle.answers.specs.parts.Answered.{Answered};
ghost use Rattle.answers.specs.parts.Tests.{Escape};

use game::tables::Tables;
use player::Player;
use storage::Winner;
use storage::answer::{Answer, mark};

// Whether a vertex with the mark p is owned by the loser and has a successor with another mark.
fn is_escape(owner: Player, stretch: &[u16], winners: &[Winner], p: u8) -> bool
    requires { AllMarked stretch.now winners.now }
    ensures { Says (Escape (mark_of winners.now) stretch.now (bit_of owner) p) result }
{
    if u8::from(owner) == p {
        return false;
    }
    for &w in stretch {
        if mark(winners, usize::from(w)) != p {
            return true;
        }
    }
    false
}

// 13: a vertex owned by the loser with a successor of the other mark.
pub fn open_escape(tables: Tables, answer: Answer) -> Option<usize>
    requires { Answered (asked tables) (claim answer) }
    ensures { Finds (Fault13 (game_of (lent tables)) (mark_of (claimed answer).winners) (move_of (claimed answer).moves)) result }
{
    for v in 0..tables.vertices() {
        let p = mark(answer.winners, v);
        if is_escape(tables.owner(v), tables.successors(v), answer.winners, p) {
            return Some(v);
        }
    }
    None
}
