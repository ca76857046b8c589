// Where two games differ: owner, priority or successors of a vertex.
ghost use Rattle.std.specs.Prelude.{◌<◌};
ghost use Rattle.game.specs.promise.Tables.{game_of, vertices};
ghost use Rattle.game.specs.promise.Lent.{asked, lent};
ghost use Rattle.amend.specs.promise.Amended.{Differs};
ghost use Rattle.refusal.specs.parts.Says.{Says};
ghost use Rattle.amend.specs.parts.Marking.{Paired};

use game::tables::Tables;

// Whether v differs between two games, each with its own first.
pub fn differs(v: usize, first: Tables, second: Tables) -> bool
    requires { (v < vertices (asked first)) × Paired (asked first) (asked second) }
    ensures { Says (Differs (game_of (lent first)) (game_of (lent second)) v) result }
{
    let next = first.successors(v);
    let next2 = second.successors(v);
    first.owners[v] != second.owners[v]
        || first.priorities[v] != second.priorities[v]
        || next != next2
}
