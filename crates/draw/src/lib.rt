// From a vertex, open or settled, to the open vertices from which its winner can force a step there: they are drawn to him.
#![tactic(auto)]

ghost use Rattle.game.specs.promise.Lent.{asked, lent};
ghost use Rattle.draw.specs.parts.Drawing.{Drawable, Drawn, DrawVisitable};

use game::tables::Tables;
use offer::offer;
use pile::{Pile, push};
use preds::Incoming;
use space::desk::Desk;
use step::step;
use storage::Winner;

// x, where an edge leads to u, gets the line that it can get through u, if any, and goes on the pile.
fn draw(
    x: usize,
    u: usize,
    low: u16,
    pile: Pile,
    tables: Tables,
    preds: Incoming,
    desk: &mut Desk,
    winners: &mut [Winner],
    moves: &mut [u16],
    work: &mut [u16],
) -> Pile
    requires { Drawable x u pile.tail (asked tables) preds.ins.now preds.froms.now desk.old winners.old moves.old work.old }
    ensures { Drawn result.tail (lent tables) preds.entry.ins.now preds.entry.froms.now winners.old moves.old work.old desk.new winners.new moves.new work.new }
{
    let Some(line) = offer(x, u, low, tables, desk, winners, work) else {
        return pile;
    };
    step(
        x,
        line,
        0,
        tables.priorities,
        preds,
        desk,
        winners,
        moves,
        work,
    );
    let above = usize::from(tables.priorities[x]) + 1;
    Pile {
        tail: push(x, desk, pile.tail),
        top: pile.top.max(above),
    }
}

// Draws every vertex from which an edge leads to u. By their places, as `reach::closure` goes over them.
pub fn visit(
    u: usize,
    low: u16,
    pile: Pile,
    tables: Tables,
    preds: Incoming,
    desk: &mut Desk,
    winners: &mut [Winner],
    moves: &mut [u16],
    work: &mut [u16],
) -> Pile
    requires { DrawVisitable u pile.tail (asked tables) preds.ins.now preds.froms.now desk.old winners.old moves.old work.old }
    ensures { Drawn result.tail (lent tables) preds.entry.ins.now preds.entry.froms.now winners.old moves.old work.old desk.new winners.new moves.new work.new }
{
    let mut drawn = pile;
    for i in usize::from(preds.ins[u])..usize::from(preds.ins[u + 1]) {
        drawn = draw(
            usize::from(preds.froms[i]),
            u,
            low,
            drawn,
            tables,
            preds,
            desk,
            winners,
            moves,
            work,
        );
    }
    drawn
}
