// Turning a vertex to the opponent: what leans on it is opened again.
#![tactic(auto)]

ghost use Rattle.turn.specs.parts.Turning.{Turnable, TurnedIn};

use crate::keep::keep;
use line::Line;
use preds::Incoming;
use reach::closure::{clear, close, seed};
use reopen::reopen;
use space::desk::Desk;
use storage::Winner;
use storage::answer::set_mark;

pub mod keep;

// If nothing below `low` is open before, nothing below the result is afterwards.
pub fn turn(
    n: usize,
    v: usize,
    line: Line,
    low: usize,
    priorities: &[u8],
    preds: Incoming,
    desk: &mut Desk,
    winners: &mut [Winner],
    moves: &mut [u16],
    work: &mut [u16],
) -> usize
    requires { Turnable n v priorities.now preds.ins.now preds.froms.now desk.old winners.old moves.old work.old }
    ensures { TurnedIn n v line.winner line.to line.level low priorities.now preds.entry.ins.now preds.entry.froms.now desk.old winners.old moves.old work.old desk.new winners.new moves.new work.new result }
{
    let one = seed(n, v, work, 0);
    let tail = close(n, preds, 0, moves, work, one);
    let least = reopen(n, priorities, desk, winners, work, tail, low);
    clear(n, work, tail);
    set_mark(winners, v, line.winner);
    keep(v, line, desk, moves, work);
    least
}
