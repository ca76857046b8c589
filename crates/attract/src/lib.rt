// Attraction from the vertices of a pile until it is empty, under a budget.
#![tactic(auto)]

ghost use Rattle.std.specs.Prelude.{◌≤◌};
ghost use Rattle.game.specs.promise.Lent.{asked, lent};
ghost use Rattle.draw.specs.parts.Drawing.{Drainable, Drawn};

use draw::visit;
use game::tables::Tables;
use pile::Pile;
use preds::Incoming;
use space::desk::Desk;
use storage::Winner;

// What is left of the budget, and a priority from which on nothing has been settled.
#[derive(Clone, Copy, Debug, PartialEq, Eq)]
pub struct Left {
    pub budget: usize,
    pub top: usize,
}

// Visits the pile's vertices, the last first, until it is empty or the budget, one a visit, is spent.
pub fn drain(
    tail: usize,
    low: u16,
    budget: usize,
    tables: Tables,
    preds: Incoming,
    desk: &mut Desk,
    winners: &mut [Winner],
    moves: &mut [u16],
    work: &mut [u16],
) -> Left
    requires { Drainable tail (asked tables) preds.ins.now preds.froms.now desk.old winners.old moves.old work.old }
    ensures left { result.budget ≤ budget }
    ensures moved { Drawn 0 (lent tables) preds.entry.ins.now preds.entry.froms.now winners.old moves.old work.old desk.new winners.new moves.new work.new }
{
    let mut pile = Pile { tail, top: 0 };
    // `left` is what this visit leaves.
    for left in (0..budget).rev() {
        let end = pile.tail;
        if end == 0 {
            return Left {
                budget: left + 1,
                top: pile.top,
            };
        }
        let last = end - 1;
        let rest = Pile {
            tail: last,
            top: pile.top,
        };
        pile = visit(
            usize::from(desk.piled(last)),
            low,
            rest,
            tables,
            preds,
            desk,
            winners,
            moves,
            work,
        );
    }
    Left {
        budget: 0,
        top: pile.top,
    }
}
