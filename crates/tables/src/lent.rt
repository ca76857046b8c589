// The tables and the lengths of winners, moves and work space: all that solver and checker test before they begin.
ghost use Rattle.std.specs.Prelude.{OnOk};
ghost use Rattle.refusal.specs.promise.Row.{Gives};
ghost use Rattle.refusal.specs.promise.Number.{tested_said};
ghost use Rattle.game.specs.promise.Tables.{WellFormed};
ghost use Rattle.game.specs.promise.Lent.{lent};
ghost use Rattle.storage.specs.promise.Lent.{lent_rows};

use crate::test_tables;
use game::tables::Tables;
use refusal::{Kind, Refusal, refuse};
use storage::lent::lengths;

// 1 to 7, then 8.
pub fn test_lent(tables: Tables, winners: usize, moves: usize, work: usize) -> Result<(), Refusal>
    ensures gives { Gives (lent_rows (lent tables) winners moves work) (tested_said result) }
    ensures formed { OnOk result (WellFormed (lent tables)) }
{
    test_tables(tables)?;
    refuse(
        lengths(tables.vertices(), winners, moves, work),
        Kind::Buffer,
    )
}
