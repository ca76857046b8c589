// Attracting from what has been opened since the last sweep, from the highest priority down.
#![tactic(auto)]

ghost use Rattle.std.specs.Prelude.{◌<◌, ◌≤◌};
ghost use Rattle.std.specs.Option.{IfSome};
ghost use Rattle.game.specs.promise.Lent.{asked, lent};
ghost use Rattle.pick.specs.parts.Order.{Frontable};
ghost use Rattle.draw.specs.parts.Drawing.{Drainable, Drawn};
ghost use Rattle.sweep.specs.parts.Gathering.{Gathered, Lookable, Looked};

use attract::{Left, drain};
use game::NONE;
use game::tables::Tables;
use pick::front;
use pile::push;
use preds::Incoming;
use space::desk::Desk;
use space::work::{behind, flag};
use storage::Winner;

// x, who stands in a line, goes on the pile if he is new there and open; he is new no longer.
fn look(n: usize, x: usize, desk: &mut Desk, work: &[u16], tail: usize) -> usize
    requires { Lookable n x desk.old work.now tail }
    ensures { Looked x desk.old tail desk.new result }
{
    if desk.waits(x) != 2 {
        return tail;
    }
    desk.set_waits(x, 1);
    if flag(n, x, work) == 0 {
        return tail;
    }
    push(x, desk, tail)
}

// The pile of those who are new in a line and open. No line has more than n.
fn gather(n: usize, priority: usize, desk: &mut Desk, work: &[u16]) -> usize
    requires { Frontable n priority desk.old work.now }
    ensures { Gathered n desk.old work.now desk.new result }
{
    let Some(mut x) = front(n, priority, desk, work) else {
        return 0;
    };
    let mut tail = 0;
    for _ in 0..n {
        tail = look(n, x, desk, work, tail);
        let next = behind(n, x, work);
        if next == NONE {
            return tail;
        }
        x = usize::from(next);
    }
    tail
}

// The highest line below p that has somebody.
fn below(desk: &Desk, p: usize) -> Option<usize>
    requires { p ≤ 256 }
    ensures { IfSome result (λ k. k < p) }
{
    (0..p).rev().find(|&k| desk.first(k) != NONE)
}

// From the priority below `top` down to 0: attracts from the new open vertices, and nothing below their priority is leaned on.
pub fn sweep(
    top: usize,
    budget: usize,
    tables: Tables,
    preds: Incoming,
    desk: &mut Desk,
    winners: &mut [Winner],
    moves: &mut [u16],
    work: &mut [u16],
) -> Left
    requires { Drainable 0 (asked tables) preds.ins.now preds.froms.now desk.old winners.old moves.old work.old }
    ensures left { result.budget ≤ budget }
    ensures moved { Drawn 0 (lent tables) preds.entry.ins.now preds.entry.froms.now winners.old moves.old work.old desk.new winners.new moves.new work.new }
{
    let n = tables.owners.len();
    let mut left = budget;
    let mut high = 0;
    let mut p = top.min(256);
    while let Some(k) = below(desk, p) {
        p = k;
        let tail = gather(n, p, desk, work);
        let drained = drain(
            tail, p as u16, left, tables, preds, desk, winners, moves, work,
        );
        left = drained.budget;
        high = high.max(drained.top);
    }
    Left {
        budget: left,
        top: high,
    }
}
