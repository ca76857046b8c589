// Settling a vertex with a move and a level. It waits on in its line until it comes to the front.
ghost use Rattle.std.specs.Prelude.{length};
ghost use Rattle.storage.specs.parts.Answers.{MoveSet};
ghost use Rattle.levels.specs.parts.Levels.{LevelSet, LevelsOnly};
ghost use Rattle.turn.specs.parts.Keeping.{Keepable};
ghost use Rattle.space.specs.parts.Work.{FlagSet};

use line::Line;
use space::desk::Desk;
use space::work::set_flag;
use storage::answer::record_move;

pub fn keep(v: usize, line: Line, desk: &mut Desk, moves: &mut [u16], work: &mut [u16])
    requires { Keepable v desk.old moves.old work.old }
    ensures moved { MoveSet moves.old moves.new v line.to }
    ensures levelled { LevelSet desk.old.levels desk.new.levels v line.level }
    ensures only { LevelsOnly desk.old desk.new }
    ensures flagged { FlagSet (length moves.old) v 0 work.old work.new }
{
    desk.set_level(v, line.level);
    set_flag(moves.len(), v, 0, work);
    record_move(moves, v, line.to);
}
