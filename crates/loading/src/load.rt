// The tables of a file whose counts add up: decoded, tested, turned.
ghost use Rattle.refusal.specs.promise.Row.{Gives};
ghost use Rattle.refusal.specs.promise.Number.{tested_said};
ghost use Rattle.format.specs.promise.Filed.{filed};
ghost use Rattle.format.specs.promise.Faults.{filed_rows};
ghost use Rattle.format.specs.parts.Tests.{Summed};
ghost use Rattle.decoding.specs.promise.Holding.{Holding};
ghost use Rattle.decoding.specs.parts.Rooms.{whole, blank};
ghost use Rattle.loading.specs.parts.Loading.{Loads};

use decoding::fields;
use decoding::room::Room;
use decoding::turn::turn;
use format::bytes::{edges, vertices};
use refusal::Refusal;
use tables::test_tables;

// The four tables as they are filed, set down in a blank room.
fn decode(file: &[u8], room: &mut Room)
    requires { Summed file.now × Holding blank (whole room.old) }
    ensures { Holding (filed file.now).tables (whole room.new) }
{
    fields::owners(file, &mut room.owners);
    fields::priorities(file, &mut room.priorities);
    fields::starts(file, &mut room.starts);
    fields::targets(file, &mut room.targets);
}

// 2 to 7: the test of the tables, on those that are filed.
fn values(file: &[u8], room: &Room) -> Result<(), Refusal>
    requires { Summed file.now × Holding (filed file.now).tables (whole room.now) }
    ensures { Gives (filed_rows file.now) (tested_said result) }
{
    test_tables(room.cut(vertices(file), edges(file)))
}

// The priorities are tested as they are filed, and turned by the rule only then.
pub fn load(file: &[u8], room: &mut Room) -> Result<(), Refusal>
    requires { Summed file.now × Holding blank (whole room.old) }
    ensures { Loads (filed_rows file.now) file.now (whole room.new) result }
{
    decode(file, room);
    values(file, room)?;
    turn(file, &mut room.priorities);
    Ok(())
}
