// The closure backwards: all vertices from which allowed steps lead to a seed, in a queue. The queue stands in the lent work space, and its end is handed on
// beside it: a struct of both would hold a `&mut`. Which steps count is data, a bound and a choice, and no closure: every promise here speaks of the two.
ghost use Rattle.refusal.specs.parts.Says.{Says};
ghost use Rattle.reach.specs.parts.Closure.{ToChoice};
ghost use Rattle.reach.specs.parts.Queue.{SeedableIn, PushedIn, ClosableIn, ClosedIn, VisitableIn, VisitedIn, Triable, Tried, ClearableIn, ClearedIn};

use game::NONE;
use preds::Incoming;
use space::work::{flag, queued, reached, set_queued, set_reached};

// One more seed.
pub fn seed(n: usize, v: usize, work: &mut [u16], tail: usize) -> usize
    requires { SeedableIn n v work.old tail }
    ensures { PushedIn n v work.old tail work.new result }
{
    set_reached(n, v, 1, work);
    set_queued(n, tail, v as u16, work);
    tail + 1
}

// Whether u may step to w: it has no choice, or w is its choice. A choice is a cell of the lent moves. A list that ends before u has none for it, so an
// empty list is no choice at all, and an `Option` of a list would say that a second time.
fn may_step(u: usize, w: usize, choice: &[u16]) -> bool
    ensures { Says (ToChoice choice.now u w) result }
{
    if u >= choice.len() {
        return true;
    }
    let fixed = choice[u];
    if fixed == NONE {
        return true;
    }
    usize::from(fixed) == w
}

// u, from where an edge leads to w, becomes a seed if its step there is allowed and it is not reached yet; the result is the new tail.
fn try_step(
    n: usize,
    u: usize,
    w: usize,
    bound: u16,
    choice: &[u16],
    work: &mut [u16],
    tail: usize,
) -> usize
    requires { Triable n u work.old tail }
    ensures { Tried n u w choice.now bound work.old tail work.new result }
{
    if reached(n, u, work) != 0 {
        return tail;
    }
    if flag(n, u, work) > bound {
        return tail;
    }
    if may_step(u, w, choice) {
        return seed(n, u, work, tail);
    }
    tail
}

// Goes over the predecessors of w, reaches and queues where an allowed step starts, and returns the new tail. By their places, not as a part of `froms`:
// `Backward` lets a stretch end before it begins, which a part may not.
fn visit(
    n: usize,
    w: usize,
    preds: Incoming,
    bound: u16,
    choice: &[u16],
    work: &mut [u16],
    tail: usize,
) -> usize
    requires { VisitableIn n w preds.ins.now preds.froms.now choice.now work.old tail }
    ensures { VisitedIn n w preds.entry.ins.now preds.entry.froms.now choice.now bound work.old tail work.new result }
{
    let mut end = tail;
    for i in usize::from(preds.ins[w])..usize::from(preds.ins[w + 1]) {
        end = try_step(n, usize::from(preds.froms[i]), w, bound, choice, work, end);
    }
    end
}

// Reaches whatever leads to the reached vertices by allowed steps; the result is the number of reached vertices.
pub fn close(
    n: usize,
    preds: Incoming,
    bound: u16,
    choice: &[u16],
    work: &mut [u16],
    tail: usize,
) -> usize
    requires { ClosableIn n preds.ins.now preds.froms.now choice.now work.old tail }
    ensures { ClosedIn n preds.entry.ins.now preds.entry.froms.now choice.now bound work.old work.new result }
{
    let mut end = tail;
    let mut h = 0;
    // No `for`: the queue grows while it is read.
    while h < end {
        let w = usize::from(queued(n, h, work));
        end = visit(n, w, preds, bound, choice, work, end);
        h += 1;
    }
    end
}

// Takes back all that is reached.
pub fn clear(n: usize, work: &mut [u16], tail: usize)
    requires { ClearableIn n work.old tail }
    ensures { ClearedIn n work.old work.new }
{
    for i in 0..tail {
        let v = usize::from(queued(n, i, work));
        set_reached(n, v, 0, work);
    }
}
