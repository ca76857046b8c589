// Lowest first: again and again an open vertex of least priority gets the line that the test gives. It is always eligible.
ghost use Rattle.game.specs.promise.Lent.{asked, lent};
ghost use Rattle.step.specs.parts.Stepping.{Engine};
ghost use Rattle.orders.specs.parts.Ending.{Ran, Fell};

use crate::Ended;
use game::tables::Tables;
use line::test;
use pick::pick;
use player::Player;
use preds::Incoming;
use space::desk::Desk;
use storage::Winner;
use turn::keep::keep;
use turn::turn;

// Steps until nothing is open or the budget, one a step, is spent. It does what `step` does by itself: with that call a relay
// game takes an eighth more instructions.
pub fn lowest(
    budget: usize,
    tables: Tables,
    preds: Incoming,
    desk: &mut Desk,
    winners: &mut [Winner],
    moves: &mut [u16],
    work: &mut [u16],
) -> Ended
    requires { Engine (asked tables) preds.ins.now preds.froms.now desk.old winners.old moves.old work.old }
    ensures ran { Ran (lent tables) preds.entry.ins.now preds.entry.froms.now winners.old moves.old work.old desk.new winners.new moves.new work.new result }
    ensures fell { Fell budget (lent tables) winners.old work.old winners.new work.new result }
{
    let n = tables.owners.len();
    let mut low: usize = 0;
    for _ in 0..budget {
        let Some(v) = pick(n, low, desk, work) else {
            return Ended::Done;
        };
        let line = test(v, tables, winners);
        let own = tables.priorities[v];
        if line.winner == u8::from(Player::of_priority(own)) {
            keep(v, line, desk, moves, work);
            low = usize::from(own);
        } else {
            low = turn(
                tables.priorities.len(),
                v,
                line,
                usize::from(own),
                tables.priorities,
                preds,
                desk,
                winners,
                moves,
                work,
            );
        }
    }
    Ended::Spent
}
