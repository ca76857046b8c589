// The update: lines of a checked answer that no amendment reaches are kept, all others decided anew.
#![tactic(auto)]

ghost use Rattle.refusal.specs.promise.Row.{None};
ghost use Rattle.game.specs.promise.Tables.{WellFormed};
ghost use Rattle.storage.specs.promise.Lent.{buffers, given, left};
ghost use Rattle.update.specs.promise.Updating.{Updates, updated_said};
ghost use Rattle.inputs.specs.promise.Inputs.{asked_input, handed, test_rows};

use checker::judge_in;
use inputs::{Input, test_input};
use preds::Predecessors;
use redo::redo;
use refusal::Refusal;
use storage::Winner;
use storage::answer::Answer;

// The checker's verdict on the old answer comes first; a refusal ends the update. The two games' predecessor lists stand in one place,
// one after the other.
#[tactic(auto, using(crate::proofs::Outcomes::refused_judged))]
fn amend(
    input: Input,
    winners: &mut [Winner],
    moves: &mut [u16],
    work: &mut [u16],
) -> Result<usize, Refusal>
    requires free { None (test_rows (asked_input input) (buffers winners moves work)) }
    requires formed { WellFormed (asked_input input).first × WellFormed (asked_input input).second }
    ensures { Updates (handed input) (given winners moves work) (left winners moves work) (updated_said result) }
{
    let mut preds = Predecessors::blank();
    judge_in(input.first, input.old, &mut preds, work)?;
    let count = redo(input, &mut preds, winners, moves, work);
    Ok(count)
}

// The number of vertices that reach an amended one; writes the answer to the second game that keeps every line of the old one that no amendment reaches, or gives the first refusal that applies.
pub fn update(
    input: Input,
    winners: &mut [Winner],
    moves: &mut [u16],
    work: &mut [u16],
) -> Result<usize, Refusal>
    ensures { Updates (handed input) (given winners moves work) (left winners moves work) (updated_said result) }
{
    test_input(input, Answer { winners, moves }, work)?;
    amend(input, winners, moves, work)
}
