// The line that an open vertex can get through one of its successors.
#![tactic(auto)]

ghost use Rattle.game.specs.promise.Lent.{asked, lent};
ghost use Rattle.offer.specs.parts.Offering.{AllSeen, AllFor, Offerable, Offers};

use game::NONE;
use game::tables::Tables;
use levels::floor;
use line::Line;
use space::desk::Desk;
use space::work::flag;
use storage::Winner;
use storage::answer::mark;

// The least floor of the vertices of a stretch, if all are marked for `winner` and no floor is below `bound`. A mark is a number, as its cell is.
fn all_for(
    winner: u8,
    bound: u16,
    stretch: &[u16],
    priorities: &[u8],
    desk: &Desk,
    winners: &[Winner],
    work: &[u16],
) -> Option<u16>
    requires { AllSeen stretch.now priorities.now desk.now winners.now work.now }
    ensures { AllFor winner bound stretch.now priorities.now desk.now.levels winners.now work.now result }
{
    let mut least = u16::MAX;
    for &to in stretch {
        let t = usize::from(to);
        if mark(winners, t) != winner {
            return None;
        }
        let level = floor(t, priorities, desk, work);
        if level < bound {
            return None;
        }
        least = least.min(level);
    }
    Some(least)
}

// The line that x can get through u: its owner moves there if he is u's winner; else all of x's successors must be marked as u is. Nothing
// below x's own priority and `low` may be leaned on.
pub fn offer(
    x: usize,
    u: usize,
    low: u16,
    tables: Tables,
    desk: &Desk,
    winners: &[Winner],
    work: &[u16],
) -> Option<Line>
    requires { Offerable x u (asked tables) desk.now winners.now work.now }
    ensures { Offers x (lent tables) desk.now.levels winners.now work.now result }
{
    if flag(tables.priorities.len(), x, work) == 0 {
        return None;
    }
    let bound = low.max(u16::from(tables.priorities[x]));
    let winner = mark(winners, u);
    // Bytes are compared: an owner made a `Player` would be made a byte again.
    if tables.owners[x] == winner {
        let high = floor(u, tables.priorities, desk, work);
        if high < bound {
            return None;
        }
        return Some(Line {
            winner,
            to: u as u16,
            level: high,
        });
    }
    let level = all_for(
        winner,
        bound,
        tables.successors(x),
        tables.priorities,
        desk,
        winners,
        work,
    )?;
    Some(Line {
        winner,
        to: NONE,
        level,
    })
}
