// A test for each of the rows 1 to 7: the lowest place at which it applies, or that it applies nowhere.
#![tactic(auto)]

ghost use Rattle.std.specs.Prelude.{ℕ, ◌<◌, length, get_or};
ghost use Rattle.refusal.specs.parts.Found.{Finds};
ghost use Rattle.game.specs.promise.Tables.{Placed};
ghost use Rattle.game.specs.promise.Faults.{Fault1, Fault2, Fault3, Fault4, Fault5, Fault6, Fault7, Descent};
ghost use Rattle.game.specs.promise.Lent.{lent};

use game::tables::Tables;
use game::vertex::successors;
use game::{EDGES, VERTICES};
use player::Player;

// 1: the lengths.
pub fn sizes(tables: Tables) -> Option<usize>
    ensures { Finds (Fault1 (lent tables)) result }
{
    let n = tables.vertices();
    let fit = (1..=VERTICES).contains(&n)
        && tables.priorities.len() == n
        && tables.starts.len() == n + 1
        && tables.targets.len() <= EDGES;
    (!fit).then_some(0)
}

// 2: an owner that is no player.
pub fn owner(owners: &[u8]) -> Option<usize>
    ensures { Finds (Fault2 owners.now) result }
{
    owners
        .iter()
        .position(|&owner| Player::try_from(owner).is_err())
}

// 3: a priority of 255. The second promise is what their type says; a proof sees it here alone, and not where they are a field of the tables.
pub fn priority(priorities: &[u8]) -> Option<usize>
    ensures finds { Finds (Fault3 priorities.now) result }
    ensures bytes { (v : ℕ) → get_or priorities.now v 0 < 256 }
{
    priorities.iter().position(|&priority| priority == 255)
}

// 4: starts that do not cut the targets into stretches. They may be equal, so this is not `descent`: a closure for `<` and `<=` would have to say in its
// contract what the two say here.
pub fn start(starts: &[u16], targets: &[u16]) -> Option<usize>
    requires { 0 < length starts.now }
    ensures { Finds (Fault4 starts.now targets.now) result }
{
    if starts[0] != 0 {
        return Some(0);
    }
    for v in 1..starts.len() {
        if starts[v] < starts[v - 1] {
            return Some(v);
        }
    }
    let last = starts.len() - 1;
    if usize::from(starts[last]) != targets.len() {
        return Some(last);
    }
    None
}

// 5: a vertex with no successor. This and 7 ask nothing of owners and priorities, so they take no `Tables`.
pub fn stuck(n: usize, starts: &[u16], targets: &[u16]) -> Option<usize>
    requires { Placed n starts.now targets.now }
    ensures { Finds (Fault5 n starts.now targets.now) result }
{
    for v in 0..n {
        if successors(starts, targets, v).is_empty() {
            return Some(v);
        }
    }
    None
}

// 6: a target that is no vertex.
pub fn target(n: usize, targets: &[u16]) -> Option<usize>
    ensures { Finds (Fault6 n targets.now) result }
{
    targets.iter().position(|&target| usize::from(target) >= n)
}

// The first number of a stretch that is not above the one before it.
fn descent(stretch: &[u16]) -> Option<usize>
    ensures { Finds (Descent stretch.now) result }
{
    (1..stretch.len()).find(|&i| stretch[i] <= stretch[i - 1])
}

// 7: a stretch that does not ascend.
pub fn order(n: usize, starts: &[u16], targets: &[u16]) -> Option<usize>
    requires { Placed n starts.now targets.now }
    ensures { Finds (Fault7 n starts.now targets.now) result }
{
    for v in 0..n {
        if let Some(i) = descent(successors(starts, targets, v)) {
            return Some(usize::from(starts[v]) + i);
        }
    }
    None
}
