// The solver: winners and moves of a game, by fixpoint iteration with justifications, one vertex at a time.
#![tactic(auto)]

ghost use Rattle.refusal.specs.promise.Number.{tested_said};
ghost use Rattle.game.specs.promise.Lent.{asked, lent};
ghost use Rattle.storage.specs.promise.Lent.{buffers, given, left};
ghost use Rattle.solver.specs.promise.Solving.{Solves, Written};
ghost use Rattle.solver.specs.parts.Answering.{Answerable};

use engine::settle;
use game::tables::Tables;
use preds::Predecessors;
use refusal::Refusal;
use start::fresh::open_all;
use storage::Winner;
use tables::lent::test_lent;

// Solves a game that has passed 1 to 8: the start with nothing kept, then the engine.
fn answer(tables: Tables, winners: &mut [Winner], moves: &mut [u16], work: &mut [u16])
    requires { Answerable (asked tables) (buffers winners moves work) }
    ensures { Written (lent tables) (given winners moves work) (left winners moves work) }
{
    let mut preds = Predecessors::blank();
    preds.list(tables);
    open_all(tables.priorities, winners, work);
    settle(tables, preds.incoming(), winners, moves, work);
    work.fill(0);
}

// Writes winners and moves of the game, or gives the first of 1 to 8 that applies.
pub fn solve(
    tables: Tables,
    winners: &mut [Winner],
    moves: &mut [u16],
    work: &mut [u16],
) -> Result<(), Refusal>
    ensures { Solves (lent tables) (given winners moves work) (left winners moves work) (tested_said result) }
{
    test_lent(tables, winners.len(), moves.len(), work.len())?;
    answer(tables, winners, moves, work);
    Ok(())
}
