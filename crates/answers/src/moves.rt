// Row 12: wrong moves. Marks and moves are numbers, as their cells are: what is asked is whether two are alike.
ghost use Rattle.refusal.specs.parts.Found.{Finds};
ghost use Rattle.refusal.specs.parts.Says.{Says};
ghost use Rattle.player.specs.promise.Named.{bit_of};
ghost use Rattle.game.specs.promise.Game.{Listed};
ghost use Rattle.game.specs.promise.Tables.{game_of};
ghost use Rattle.game.specs.promise.Lent.{asked, lent};
ghost use Rattle.storage.specs.promise.Answer.{mark_of, move_of};
ghost use Rattle.storage.specs.promise.Lent.{claim, claimed};
ghost use Rattle.storage.specs.parts.Answers.{AllMarked};
ghost use Rattle.winning.specs.promise.Faults.{Fault12};
ghost use Rattle.answers.specs.parts.Answered.{Answered};
ghost use Rattle.answers.specs.parts.Tests.{OwnMove, WrongMove};

use game::NONE;
use game::tables::Tables;
use player::Player;
use storage::Winner;
use storage::answer::{Answer, mark, recorded};

// Whether w is in the stretch. A binary search took up to three times as long on the usual stretches of one to four targets (docs/DECISIONS.md, Hubs).
fn is_successor(stretch: &[u16], w: u16) -> bool
    ensures { Says (Listed w stretch.now) result }
{
    stretch.contains(&w)
}

// Whether m is a successor with the mark p.
fn is_own_move(stretch: &[u16], winners: &[Winner], p: u8, m: u16) -> bool
    requires { AllMarked stretch.now winners.now }
    ensures { Says (OwnMove (mark_of winners.now) stretch.now p m) result }
{
    is_successor(stretch, m) && mark(winners, usize::from(m)) == p
}

// Whether the move m is wrong at a vertex with the mark p.
fn is_wrong_move(owner: Player, stretch: &[u16], winners: &[Winner], p: u8, m: u16) -> bool
    requires { AllMarked stretch.now winners.now }
    ensures { Says (WrongMove (mark_of winners.now) stretch.now (bit_of owner) p m) result }
{
    if u8::from(owner) == p {
        !is_own_move(stretch, winners, p, m)
    } else {
        m != NONE
    }
}

// 12: a wrong move: where the winner owns, no successor with the same mark; elsewhere any but 65,535.
pub fn wrong_move(tables: Tables, answer: Answer) -> Option<usize>
    requires { Answered (asked tables) (claim answer) }
    ensures { Finds (Fault12 (game_of (lent tables)) (mark_of (claimed answer).winners) (move_of (claimed answer).moves)) result }
{
    for v in 0..tables.vertices() {
        let p = mark(answer.winners, v);
        let m = recorded(answer.moves, v);
        if is_wrong_move(tables.owner(v), tables.successors(v), answer.winners, p, m) {
            return Some(v);
        }
    }
    None
}
