// The priorities as the levels of a closure.
ghost use Rattle.cycles.specs.parts.Levels.{LevelsAsked, PrioritiesSet};

use space::work::set_flag;

// Puts the priorities into the work space; `levels::by_priority` puts them on the desk.
pub fn set_levels(priorities: &[u8], work: &mut [u16])
    requires { LevelsAsked priorities.now work.old }
    ensures { PrioritiesSet priorities.now work.old work.new }
{
    let n = priorities.len();
    for (v, &priority) in priorities.iter().enumerate() {
        set_flag(n, v, u16::from(priority), work);
    }
}
