// The order by attraction, from the highest priority down; where it comes to a stand an open vertex of least priority is tested.
#![tactic(auto)]

ghost use Rattle.game.specs.promise.Lent.{asked, lent};
ghost use Rattle.draw.specs.parts.Drawing.{Drainable};
ghost use Rattle.orders.specs.parts.Ending.{Ran};

use game::tables::Tables;
use orders::Ended;
use pick::pick;
use preds::Incoming;
use probe::probe;
use space::desk::Desk;
use storage::Winner;
use sweep::sweep;

// Attracts until nothing is open or the budget, one a test and one a visit, is spent.
pub fn attraction(
    budget: usize,
    tables: Tables,
    preds: Incoming,
    desk: &mut Desk,
    winners: &mut [Winner],
    moves: &mut [u16],
    work: &mut [u16],
) -> Ended
    requires { Drainable 0 (asked tables) preds.ins.now preds.froms.now desk.old winners.old moves.old work.old }
    ensures { Ran (lent tables) preds.entry.ins.now preds.entry.froms.now winners.old moves.old work.old desk.new winners.new moves.new work.new result }
{
    let n = tables.owners.len();
    let mut top: usize = 256;
    let mut left = budget;
    // No `for`: one turn takes as much of the budget as it has visits.
    while 0 < left {
        let swept = sweep(top, left, tables, preds, desk, winners, moves, work);
        let Some(v) = pick(n, 0, desk, work) else {
            return Ended::Done;
        };
        let rest = swept.budget;
        let drained = probe(v, rest, tables, preds, desk, winners, moves, work);
        top = swept.top.max(drained.top);
        left = drained.budget;
    }
    Ended::Spent
}
