// A probe: an open vertex of least priority is tested, and attraction goes on from it.
#![tactic(auto)]

ghost use Rattle.std.specs.Prelude.{◌<◌, ◌≤◌};
ghost use Rattle.game.specs.promise.Lent.{asked, lent};
ghost use Rattle.draw.specs.parts.Drawing.{Drawn};
ghost use Rattle.probe.specs.parts.Probing.{Probable};

use attract::{Left, drain};
use game::tables::Tables;
use line::test;
use pile::push;
use preds::Incoming;
use space::desk::Desk;
use step::step;
use storage::Winner;

// Tests v, an open vertex of least priority, and attracts from it; the test costs one.
pub fn probe(
    v: usize,
    budget: usize,
    tables: Tables,
    preds: Incoming,
    desk: &mut Desk,
    winners: &mut [Winner],
    moves: &mut [u16],
    work: &mut [u16],
) -> Left
    requires { Probable v (asked tables) preds.ins.now preds.froms.now desk.old winners.old moves.old work.old }
    ensures left { (result.budget ≤ budget) × (0 < budget → result.budget < budget) }
    ensures moved { Drawn 0 (lent tables) preds.entry.ins.now preds.entry.froms.now winners.old moves.old work.old desk.new winners.new moves.new work.new }
{
    let own = usize::from(tables.priorities[v]);
    let line = test(v, tables, winners);
    step(
        v,
        line,
        own,
        tables.priorities,
        preds,
        desk,
        winners,
        moves,
        work,
    );
    let tail = push(v, desk, 0);
    let drained = drain(
        tail,
        0,
        budget.saturating_sub(1),
        tables,
        preds,
        desk,
        winners,
        moves,
        work,
    );
    Left {
        budget: drained.budget,
        top: drained.top.max(own + 1),
    }
}
