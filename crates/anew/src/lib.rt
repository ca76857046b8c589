// The reached vertices decided anew, the others kept: the engine's start is prepared from the old answer, and the engine run.
#![tactic(auto)]

ghost use Rattle.game.specs.promise.Lent.{asked, lent};
ghost use Rattle.storage.specs.promise.Lent.{claimed};
ghost use Rattle.anew.specs.parts.Deciding.{Decidable, DecidedAnew};

use engine::settle;
use game::tables::Tables;
use preds::Incoming;
use start::kept::prepare;
use storage::Winner;
use storage::answer::Answer;

// Writes an accepted answer to the game in which every unreached vertex has its old line. What is reached is bytes, as `start::kept` says.
pub fn decide(
    tables: Tables,
    preds: Incoming,
    old: Answer,
    reached: &[u8],
    winners: &mut [Winner],
    moves: &mut [u16],
    work: &mut [u16],
)
    requires { Decidable (asked tables) old.winners.now old.moves.now reached.now preds.ins.now preds.froms.now winners.old moves.old work.old }
    ensures { DecidedAnew (lent tables) (claimed old).winners (claimed old).moves reached.now winners.old moves.old work.old winners.new moves.new work.new }
{
    let n = tables.owners.len();
    prepare(n, tables.priorities, old, reached, winners, moves, work);
    settle(tables, preds, winners, moves, work);
    work.fill(0);
}
