// After acceptance: what the amendment reaches is decided anew, the rest is kept.
#![tactic(auto)]

ghost use Rattle.storage.specs.promise.Lent.{buffers, given, left};
ghost use Rattle.inputs.specs.promise.Inputs.{asked_input, handed};
ghost use Rattle.redo.specs.parts.Redoing.{Redoable, RedoneTo};

use amend::marking::find_reached;
use anew::decide;
use game::VERTICES;
use inputs::Input;
use preds::Predecessors;
use storage::Winner;

// Finds what the amendment reaches, decides that anew, keeps the rest, and returns the number of the former. The second game's predecessor lists
// are made in the lent ones. What is reached is bytes, as `start::kept` says.
pub fn redo(
    input: Input,
    preds: &mut Predecessors,
    winners: &mut [Winner],
    moves: &mut [u16],
    work: &mut [u16],
) -> usize
    requires { Redoable (asked_input input) (buffers winners moves work) preds.old.ins preds.old.froms }
    ensures { RedoneTo (handed input) (given winners moves work) (left winners moves work) result }
{
    preds.list(input.second);
    let mut reached = [0u8; VERTICES];
    let count = find_reached(
        input.first,
        input.second,
        preds.incoming(),
        &mut reached,
        work,
    );
    decide(
        input.second,
        preds.incoming(),
        input.old,
        &reached,
        winners,
        moves,
        work,
    );
    count
}
