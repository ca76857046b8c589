// One step of the method: an open vertex gets a line and is settled with it, or turned to the opponent.
#![tactic(auto)]

ghost use Rattle.std.specs.Prelude.{length};
ghost use Rattle.turn.specs.parts.Turning.{Turnable};
ghost use Rattle.step.specs.parts.Outcome.{SteppedIn};

use line::Line;
use player::Player;
use preds::Incoming;
use space::desk::Desk;
use storage::Winner;
use turn::keep::keep;
use turn::turn;

// v, which is open, gets the line. If nothing below `low` is open before, nothing below the result is afterwards.
pub fn step(
    v: usize,
    line: Line,
    low: usize,
    priorities: &[u8],
    preds: Incoming,
    desk: &mut Desk,
    winners: &mut [Winner],
    moves: &mut [u16],
    work: &mut [u16],
) -> usize
    requires { Turnable (length priorities.now) v priorities.now preds.ins.now preds.froms.now desk.old winners.old moves.old work.old }
    ensures { SteppedIn (length priorities.now) v line.winner line.to line.level low priorities.now preds.entry.ins.now preds.entry.froms.now desk.old winners.old moves.old work.old desk.new winners.new moves.new work.new result }
{
    let own = priorities[v];
    if line.winner == u8::from(Player::of_priority(own)) {
        keep(v, line, desk, moves, work);
        return low;
    }
    let n = priorities.len();
    turn(
        n, v, line, low, priorities, preds, desk, winners, moves, work,
    )
}
