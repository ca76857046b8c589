// The engine: the open vertices line up, the levels are the priorities, and then the rounds run.
#![tactic(auto)]

ghost use Rattle.game.specs.promise.Lent.{asked, lent};
ghost use Rattle.engine.specs.parts.Settling.{NoLines, Settleable};
ghost use Rattle.rounds.specs.parts.Settled.{SettledTo};

use game::NONE;
use game::tables::Tables;
use levels::by_priority;
use preds::Incoming;
use rounds::run;
use space::desk::Desk;
use storage::Winner;
use waiting::line_up;

// Nobody stands in any line.
fn no_lines(desk: &mut Desk)
    ensures { NoLines desk.old desk.new }
{
    desk.firsts.fill(NONE);
}

// Settles what is open; no line of a kept set changes.
pub fn settle(
    tables: Tables,
    preds: Incoming,
    winners: &mut [Winner],
    moves: &mut [u16],
    work: &mut [u16],
)
    requires { Settleable (asked tables) preds.ins.now preds.froms.now winners.old moves.old work.old }
    ensures { SettledTo (lent tables) winners.old moves.old work.old winners.new moves.new work.new }
{
    let n = tables.owners.len();
    let mut desk = Desk::blank();
    no_lines(&mut desk);
    line_up(n, tables.priorities, &mut desk, work);
    by_priority(tables.priorities, &mut desk);
    run(tables, preds, &mut desk, winners, moves, work);
}
