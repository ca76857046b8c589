// All rows that judge a file, in their order.
ghost use Rattle.refusal.specs.promise.Row.{Gives};
ghost use Rattle.refusal.specs.promise.Number.{tested_said};
ghost use Rattle.format.specs.promise.Faults.{judged_rows};
ghost use Rattle.decoding.specs.promise.Holding.{Holding};
ghost use Rattle.decoding.specs.parts.Rooms.{whole, blank};
ghost use Rattle.loading.specs.parts.Loading.{frame_rows, Loads};

use crate::load::load;
use blocks::blocks;
use blocks::head::head;
use decoding::counts::counts;
use decoding::room::Room;
use refusal::{FileFault, Kind, Refusal, refuse};

// What is judged before the tables are decoded. The blocks are read only once the header has passed, the counts only once the blocks have.
fn frame(file: &[u8]) -> Result<(), Refusal>
    ensures { Gives (frame_rows file.now) (tested_said result) }
{
    head(file)?;
    blocks(file)?;
    refuse(counts(file), Kind::Filed(FileFault::Edges))
}

// All rows that judge the file. If none applies, the blank room holds the tables of its game afterwards.
pub fn judge(file: &[u8], room: &mut Room) -> Result<(), Refusal>
    requires { Holding blank (whole room.old) }
    ensures { Loads (judged_rows file.now) file.now (whole room.new) result }
{
    frame(file)?;
    load(file, room)
}
