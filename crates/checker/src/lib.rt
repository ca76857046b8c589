// The checker of answers: whether winners and moves, from anyone, are right for a game.
#![tactic(auto)]

ghost use Rattle.refusal.specs.promise.Number.{tested_said};
ghost use Rattle.game.specs.promise.Lent.{asked, lent};
ghost use Rattle.storage.specs.promise.Lent.{claim, claimed};
ghost use Rattle.preds.specs.parts.Build.{Blank};
ghost use Rattle.checker.specs.promise.Checking.{Checks};
ghost use Rattle.checker.specs.parts.Judging.{Judgeable, JudgeableIn, Judged};

use answers::escapes::open_escape;
use answers::moves::wrong_move;
use cycles::lost::lost_cycle;
use game::tables::Tables;
use preds::{Incoming, Predecessors};
use refusal::{AnswerFault, Kind, Refusal, refuse};
use storage::answer::Answer;
use storage::marks::strange_mark;
use tables::lent::test_lent;

// 11 to 14, each over all vertices before the next, on an answer to a game that has passed 1 to 8, with the game's predecessor lists.
pub fn judge(
    tables: Tables,
    answer: Answer,
    preds: Incoming,
    work: &mut [u16],
) -> Result<(), Refusal>
    requires { Judgeable (asked tables) (claim answer) preds.ins.now preds.froms.now work.old }
    ensures { Judged (lent tables) (claimed answer) work.old work.new (tested_said result) }
{
    work.fill(0);
    refuse(
        strange_mark(tables.owners.len(), answer.winners),
        Kind::Claim(AnswerFault::Mark),
    )?;
    refuse(wrong_move(tables, answer), Kind::Claim(AnswerFault::Move))?;
    refuse(
        open_escape(tables, answer),
        Kind::Claim(AnswerFault::Escape),
    )?;
    refuse(
        lost_cycle(tables, answer, preds, work),
        Kind::Claim(AnswerFault::Cycle),
    )
}

// The same, where the game's predecessor lists are made in lent lists, whatever these hold.
pub fn judge_in(
    tables: Tables,
    answer: Answer,
    preds: &mut Predecessors,
    work: &mut [u16],
) -> Result<(), Refusal>
    requires { JudgeableIn (asked tables) (claim answer) preds.old.ins preds.old.froms work.old }
    ensures room { Blank preds.new.ins preds.new.froms }
    ensures judged { Judged (lent tables) (claimed answer) work.old work.new (tested_said result) }
{
    preds.list(tables);
    judge(tables, answer, preds.incoming(), work)
}

// Whether the answer is right for the game: the first of 1 to 8 and 11 to 14 that applies, or acceptance.
pub fn check(tables: Tables, answer: Answer, work: &mut [u16]) -> Result<(), Refusal>
    ensures { Checks (lent tables) (claimed answer) work.old work.new (tested_said result) }
{
    test_lent(tables, answer.winners.len(), answer.moves.len(), work.len())?;
    let mut preds = Predecessors::blank();
    judge_in(tables, answer, &mut preds, work)
}
