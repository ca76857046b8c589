// Opening again what the closure has queued.
#![tactic(auto)]

ghost use Rattle.waiting.specs.parts.Moves.{Standable};
ghost use Rattle.reopen.specs.parts.Reopening.{OpenedIn, Reopenable, Reopened};

use player::Player;
use space::desk::Desk;
use space::work::{queued, set_flag};
use storage::Winner;
use storage::answer::set_mark;
use waiting::stand;

// Opens u, which waits in its line from now on.
fn open_again(n: usize, u: usize, priorities: &[u8], desk: &mut Desk, work: &mut [u16])
    requires { Standable n u priorities.now desk.old work.old }
    ensures { OpenedIn n u priorities.now desk.old work.old desk.new work.new }
{
    stand(n, u, priorities, desk, work);
    set_flag(n, u, 1, work);
}

// Opens the queue's vertices with their own parities' marks; the result is the least of `from` and their priorities.
pub fn reopen(
    n: usize,
    priorities: &[u8],
    desk: &mut Desk,
    winners: &mut [Winner],
    work: &mut [u16],
    tail: usize,
    from: usize,
) -> usize
    requires { Reopenable n priorities.now desk.old winners.old work.old tail }
    ensures { Reopened n priorities.now desk.old winners.old work.old from desk.new winners.new work.new result }
{
    let mut low = from;
    for i in 0..tail {
        let u = usize::from(queued(n, i, work));
        let p = priorities[u];
        set_mark(winners, u, u8::from(Player::of_priority(p)));
        open_again(n, u, priorities, desk, work);
        low = low.min(usize::from(p));
    }
    low
}
