// A step back to what a closure has reached.
ghost use Rattle.refusal.specs.parts.Says.{Says};
ghost use Rattle.space.specs.parts.Work.{section};
ghost use Rattle.cycles.specs.parts.Back.{Backable, Comes};

use game::NONE;
use space::work::reached;

// Whether a step leads from a vertex with this stretch and move to a reached vertex. The move is a number, as its cell is.
pub fn comes_back(n: usize, stretch: &[u16], m: u16, work: &[u16]) -> bool
    requires { Backable n stretch.now m work.now }
    ensures { Says (Comes stretch.now m (section 1 n work.now)) result }
{
    if m != NONE {
        return reached(n, usize::from(m), work) == 1;
    }
    for &w in stretch {
        if reached(n, usize::from(w), work) == 1 {
            return true;
        }
    }
    false
}
