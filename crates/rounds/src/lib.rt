// The policy: the two orders in turn, each with a budget that grows, so that a game must be slow for both. Between two rounds everything
// that is not decided for good is opened again. Which order begins, and the budgets, decide only how soon the answer is there.
#![tactic(auto)]

ghost use Rattle.std.specs.Prelude.{◌≤◌};
ghost use Rattle.game.specs.promise.Lent.{asked, lent};
ghost use Rattle.step.specs.parts.Stepping.{Engine};
ghost use Rattle.draw.specs.parts.Drawing.{Drainable};
ghost use Rattle.rounds.specs.parts.Settled.{SettledTo};

use game::NONE;
use game::tables::Tables;
use one_round::{Order, round};
use orders::Ended;
use orders::lowest::lowest;
use preds::Incoming;
use restart::restart;
use space::desk::Desk;
use storage::Winner;

// How many priorities have somebody in their line.
fn lines_used(desk: &Desk) -> usize
    ensures { result ≤ 256 }
{
    (0..256).filter(|&k| desk.first(k) != NONE).count()
}

// Attraction begins where there are many priorities: on random games it then visits an eighth of the edges. With few, lowest first visits fewer.
fn begins_with(used: usize) -> Order {
    if 6 < used {
        Order::Attraction
    } else {
        Order::Lowest
    }
}

// Lowest first to the end: it comes, though perhaps not soon.
fn finish(
    tables: Tables,
    preds: Incoming,
    desk: &mut Desk,
    winners: &mut [Winner],
    moves: &mut [u16],
    work: &mut [u16],
)
    requires { Engine (asked tables) preds.ins.now preds.froms.now desk.old winners.old moves.old work.old }
    ensures { SettledTo (lent tables) winners.old moves.old work.old winners.new moves.new work.new }
{
    loop {
        let last = lowest(1048576, tables, preds, desk, winners, moves, work);
        if let Ended::Done = last {
            return;
        }
    }
}

// Rounds until nothing is open; after 32 of them, which nobody will see, lowest first to the end.
pub fn run(
    tables: Tables,
    preds: Incoming,
    desk: &mut Desk,
    winners: &mut [Winner],
    moves: &mut [u16],
    work: &mut [u16],
)
    requires { Drainable 0 (asked tables) preds.ins.now preds.froms.now desk.old winners.old moves.old work.old }
    ensures { SettledTo (lent tables) winners.old moves.old work.old winners.new moves.new work.new }
{
    let mut order = begins_with(lines_used(desk));
    let mut budget = 16 * tables.owners.len();
    for _ in 0..32 {
        let ended = round(order, budget, tables, preds, desk, winners, moves, work);
        if let Ended::Done = ended {
            return;
        }
        restart(tables.priorities, preds, moves, desk, winners, work);
        order = order.other();
        budget = budget.saturating_mul(2);
    }
    finish(tables, preds, desk, winners, moves, work);
}
