// Row 14: each vertex is the only seed of a closure of its own.
ghost use Rattle.refusal.specs.parts.Found.{Finds};
ghost use Rattle.game.specs.promise.Tables.{game_of};
ghost use Rattle.game.specs.promise.Lent.{asked, lent};
ghost use Rattle.storage.specs.promise.Answer.{mark_of, move_of};
ghost use Rattle.storage.specs.promise.Lent.{claim, claimed, Zeroed};
ghost use Rattle.winning.specs.promise.Faults.{Fault14};
ghost use Rattle.cycles.specs.parts.Lost.{LostAsked};
ghost use Rattle.cycles.specs.parts.Rounds.{Rounding, Rounds};

use crate::back::comes_back;
use crate::levels::set_levels;
use game::tables::Tables;
use player::Player;
use preds::Incoming;
use reach::closure::{clear, close, seed};
use storage::answer::{Answer, mark, recorded};

// Whether x lies on a cycle by the recorded moves with its own priority, of the wrong parity, as the highest.
fn is_lost(x: usize, tables: Tables, answer: Answer, preds: Incoming, work: &mut [u16]) -> bool
    requires { Rounding x (asked tables) (claim answer) preds.ins.now preds.froms.now work.old }
    ensures { Rounds x (lent tables) (claimed answer) work.new result }
{
    if u8::from(Player::of_priority(tables.priorities[x])) == mark(answer.winners, x) {
        return false;
    }
    let n = tables.vertices();
    let bound = u16::from(tables.priorities[x]);
    let one = seed(n, x, work, 0);
    let tail = close(n, preds, bound, answer.moves, work, one);
    let back = comes_back(n, tables.successors(x), recorded(answer.moves, x), work);
    clear(n, work, tail);
    back
}

// The lowest such x.
fn lowest_lost(tables: Tables, answer: Answer, preds: Incoming, work: &mut [u16]) -> Option<usize>
    requires { Rounding 0 (asked tables) (claim answer) preds.ins.now preds.froms.now work.old }
    ensures { Finds (Fault14 (game_of (lent tables)) (mark_of (claimed answer).winners) (move_of (claimed answer).moves)) result }
{
    for x in 0..tables.vertices() {
        if is_lost(x, tables, answer, preds, work) {
            return Some(x);
        }
    }
    None
}

// 14, given that none of 11 to 13 applies, the game's predecessor lists, and a work space all zero.
pub fn lost_cycle(
    tables: Tables,
    answer: Answer,
    preds: Incoming,
    work: &mut [u16],
) -> Option<usize>
    requires { LostAsked (asked tables) (claim answer) preds.ins.now preds.froms.now work.old }
    ensures finds { Finds (Fault14 (game_of (lent tables)) (mark_of (claimed answer).winners) (move_of (claimed answer).moves)) result }
    ensures zeroed { Zeroed work.old work.new }
{
    set_levels(tables.priorities, work);
    let found = lowest_lost(tables, answer, preds, work);
    work.fill(0);
    found
}
