// The test of the tables: the first of 1 to 7 that applies, with its place.
#![tactic(auto)]

ghost use Rattle.std.specs.Prelude.{OnOk};
ghost use Rattle.refusal.specs.promise.Row.{Gives};
ghost use Rattle.refusal.specs.promise.Number.{tested_said};
ghost use Rattle.game.specs.promise.Tables.{WellFormed};
ghost use Rattle.game.specs.promise.Faults.{table_rows};
ghost use Rattle.game.specs.promise.Lent.{lent};

use game::tables::Tables;
use refusal::{Kind, Refusal, TableFault, refuse};

pub mod lent;

// Sizes come first, so that tables of any length are refused without a walk; 5 to 7 read stretches, so 4 comes before them.
pub fn test_tables(tables: Tables) -> Result<(), Refusal>
    ensures gives { Gives (table_rows (lent tables)) (tested_said result) }
    ensures formed { OnOk result (WellFormed (lent tables)) }
{
    refuse(faults::sizes(tables), Kind::Game(TableFault::Sizes))?;
    refuse(faults::owner(tables.owners), Kind::Game(TableFault::Owner))?;
    refuse(
        faults::priority(tables.priorities),
        Kind::Game(TableFault::Priority),
    )?;
    refuse(
        faults::start(tables.starts, tables.targets),
        Kind::Game(TableFault::Start),
    )?;
    let n = tables.owners.len();
    refuse(
        faults::stuck(n, tables.starts, tables.targets),
        Kind::Game(TableFault::Stuck),
    )?;
    refuse(
        faults::target(n, tables.targets),
        Kind::Game(TableFault::Target),
    )?;
    refuse(
        faults::order(n, tables.starts, tables.targets),
        Kind::Game(TableFault::Order),
    )
}
