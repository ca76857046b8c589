// The vertices from which to attract next, the last first. They stand on the desk, and their number is handed on beside it, so that what writes another part of
// the desk need not say that it stays.
#![tactic(auto)]

ghost use Rattle.pile.specs.parts.Pile.{Pushable, PushedOn};

use space::desk::Desk;

// How many vertices are on the pile, and a priority from which on nothing has been settled since the last sweep.
#[derive(Clone, Copy, Debug, PartialEq, Eq)]
pub struct Pile {
    pub tail: usize,
    pub top: usize,
}

// One vertex more; on a full pile it is left out, and waits in its line for a later turn.
pub fn push(x: usize, desk: &mut Desk, tail: usize) -> usize
    requires { Pushable x desk.old tail }
    ensures { PushedOn x desk.old tail desk.new result }
{
    if tail == 2048 {
        return tail;
    }
    desk.set_piled(tail, x as u16);
    tail + 1
}
