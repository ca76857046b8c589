// The start with nothing kept: every vertex is open, with the mark of its own priority's parity, and none is reached by a closure.
ghost use Rattle.start.specs.parts.Opening.{Startable, AllOpen};

use player::Player;
use space::work::{set_flag, set_reached};
use storage::Winner;
use storage::answer::set_mark;

pub fn open_all(priorities: &[u8], winners: &mut [Winner], work: &mut [u16])
    requires { Startable priorities.now winners.old work.old }
    ensures { AllOpen priorities.now winners.old work.old winners.new work.new }
{
    let n = priorities.len();
    for (v, &priority) in priorities.iter().enumerate() {
        set_mark(winners, v, u8::from(Player::of_priority(priority)));
        set_flag(n, v, 1, work);
        set_reached(n, v, 0, work);
    }
}
