// A fresh start: what does not lean on an open vertex is decided for good and stays, and everything else is opened again.
#![tactic(auto)]

ghost use Rattle.std.specs.Prelude.{length};
ghost use Rattle.restart.specs.parts.Restarting.{OpenSeedable, SeededAll, Firmable, Firmed, Restartable, RestartedIn};

use preds::Incoming;
use reach::closure::{clear, close, seed};
use reopen::reopen;
use space::desk::Desk;
use space::work::{flag, reached};
use storage::Winner;

// Every open vertex is a seed; the result is their number. Apart from `amend`'s loop, as it says there.
fn seed_open(n: usize, work: &mut [u16]) -> usize
    requires { OpenSeedable n work.old }
    ensures { SeededAll n work.old work.new result }
{
    let mut tail = 0;
    for v in 0..n {
        if flag(n, v, work) != 0 {
            tail = seed(n, v, work, tail);
        }
    }
    tail
}

// What is not reached is firm: its level is above all priorities.
fn make_firm(n: usize, desk: &mut Desk, work: &[u16])
    requires { Firmable n desk.old work.now }
    ensures { Firmed n desk.old work.now desk.new }
{
    for v in 0..n {
        if reached(n, v, work) == 0 {
            desk.set_level(v, 256);
        }
    }
}

// Opens again all that leans on an open vertex.
pub fn restart(
    priorities: &[u8],
    preds: Incoming,
    moves: &[u16],
    desk: &mut Desk,
    winners: &mut [Winner],
    work: &mut [u16],
)
    requires { Restartable (length priorities.now) priorities.now preds.ins.now preds.froms.now desk.old winners.old work.old }
    ensures { RestartedIn (length priorities.now) priorities.now preds.entry.ins.now preds.entry.froms.now moves.now winners.old work.old desk.new winners.new work.new }
{
    let n = priorities.len();
    let tail = seed_open(n, work);
    let end = close(n, preds, 0, moves, work, tail);
    reopen(n, priorities, desk, winners, work, end, 0);
    make_firm(n, desk, work);
    clear(n, work, end);
}
