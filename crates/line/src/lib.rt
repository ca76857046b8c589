// The test of a vertex by its successors' marks.
#![tactic(auto)]

ghost use Rattle.std.specs.Prelude.{◌≡◌, get_or};
ghost use Rattle.game.specs.promise.Lent.{asked, lent};
ghost use Rattle.line.specs.parts.Testing.{Testable, TestedBy};

use game::NONE;
use game::tables::Tables;
use storage::Winner;
use storage::vertex::test_vertex;

// A line that a vertex may get: who wins it, his move, 65,535 where he does not own it, and a level. Numbers, as their cells hold them: `step` and `turn`
// promise for any mark and any move, and a `Player` or an `Option` here would take some of them away.
#[derive(Clone, Copy, Debug, PartialEq, Eq)]
pub struct Line {
    pub winner: u8,
    pub to: u16,
    pub level: u16,
}

// The line that the test gives, with the vertex's own priority as its level.
pub fn test(v: usize, tables: Tables, winners: &[Winner]) -> Line
    requires { Testable v (asked tables) winners.now }
    ensures tested { TestedBy v (lent tables) winners.now result.winner result.to }
    ensures level { result.level ≡ get_or (lent tables).priorities v 0 }
{
    let owner = tables.owner(v);
    let level = u16::from(tables.priorities[v]);
    match test_vertex(owner, tables.successors(v), winners) {
        Some(w) => Line {
            winner: u8::from(owner),
            to: w,
            level,
        },
        None => Line {
            winner: u8::from(owner.opponent()),
            to: NONE,
            level,
        },
    }
}
