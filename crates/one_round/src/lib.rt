// Either order, under a budget.
#![tactic(auto)]

ghost use Rattle.std.specs.Prelude.{◌≢◌};
ghost use Rattle.game.specs.promise.Lent.{asked, lent};
ghost use Rattle.draw.specs.parts.Drawing.{Drainable};
ghost use Rattle.orders.specs.parts.Ending.{Ran};

use attraction::attraction;
use game::tables::Tables;
use orders::Ended;
use orders::lowest::lowest;
use preds::Incoming;
use space::desk::Desk;
use storage::Winner;

// Which of the two orders a round takes.
#[derive(Clone, Copy, Debug, PartialEq, Eq)]
pub enum Order {
    Lowest,
    Attraction,
}

impl Order {
    pub fn other(self) -> Order
        ensures { result ≢ self }
    {
        match self {
            Order::Lowest => Order::Attraction,
            Order::Attraction => Order::Lowest,
        }
    }
}

// One round in an order.
pub fn round(
    order: Order,
    budget: usize,
    tables: Tables,
    preds: Incoming,
    desk: &mut Desk,
    winners: &mut [Winner],
    moves: &mut [u16],
    work: &mut [u16],
) -> Ended
    requires { Drainable 0 (asked tables) preds.ins.now preds.froms.now desk.old winners.old moves.old work.old }
    ensures { Ran (lent tables) preds.entry.ins.now preds.entry.froms.now winners.old moves.old work.old desk.new winners.new moves.new work.new result }
{
    // Two orders of one signature, so a branch and no closure. No `match`: with one LLVM inlines less, and random games take a tenth more time to solve
    // (measured).
    if order == Order::Lowest {
        return lowest(budget, tables, preds, desk, winners, moves, work);
    }
    attraction(budget, tables, preds, desk, winners, moves, work)
}
