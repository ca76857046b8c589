// Levels: for each settled vertex a priority below which its support leads to no open vertex.
#![tactic(auto)]

ghost use Rattle.levels.specs.parts.Levels.{Seen, FloorOf, LevelRoom, ByPriority};

use space::desk::Desk;
use space::work::flag;

// The floor of a vertex: its own priority if it is open, else its level.
pub fn floor(t: usize, priorities: &[u8], desk: &Desk, work: &[u16]) -> u16
    requires { Seen t priorities.now desk.now work.now }
    ensures { FloorOf t priorities.now desk.now.levels work.now result }
{
    if flag(priorities.len(), t, work) == 0 {
        return desk.level(t);
    }
    u16::from(priorities[t])
}

// Every vertex's level is its priority, which is right in every safe state.
pub fn by_priority(priorities: &[u8], desk: &mut Desk)
    requires { LevelRoom priorities.now desk.old }
    ensures { ByPriority priorities.now desk.old desk.new }
{
    for (v, &priority) in priorities.iter().enumerate() {
        desk.set_level(v, u16::from(priority));
    }
}
