// The entry point: what is judged, and then the tables.
ghost use Rattle.std.specs.Prelude.{◌≡◌, ◌≤◌, length};
ghost use Rattle.refusal.specs.parts.Found.{Finds};
ghost use Rattle.game.specs.promise.Tables.{tables_of};
ghost use Rattle.game.specs.promise.Lent.{Fault8, written};
ghost use Rattle.format.specs.promise.Filed.{vertices_filed, edges_filed};
ghost use Rattle.decoding.specs.parts.Rooms.{whole};
ghost use Rattle.housefile.specs.promise.Faults.{lent_lengths};
ghost use Rattle.housefile.specs.promise.Reading.{Reads, read_said};
ghost use Rattle.housefile.specs.parts.Storing.{SameLengths, Stored};

use crate::Header;
use decoding::room::{Room, STARTS};
use format::bytes;
use game::buffers::compare;
use game::{EDGES, VERTICES};
use loading::judge::judge;
use refusal::{Kind, Refusal, refuse};

// 8: the lengths of the lent tables.
fn lengths(owners: usize, priorities: usize, starts: usize, targets: usize) -> Option<usize>
    ensures { Finds (Fault8 (lent_lengths owners priorities starts targets)) result }
{
    let edges = compare(None, targets, EDGES);
    let bounds = compare(edges, starts, STARTS);
    let ranks = compare(bounds, priorities, VERTICES);
    compare(ranks, owners, VERTICES)
}

// What the room holds, over the lent tables of its lengths: four lists, as C lends them.
fn store(
    room: &Room,
    owners: &mut [u8],
    priorities: &mut [u8],
    starts: &mut [u16],
    targets: &mut [u16],
)
    requires { SameLengths (whole room.now) (tables_of owners.old priorities.old starts.old targets.old) }
    ensures { Stored (whole room.now) (written owners priorities starts targets) }
{
    owners.copy_from_slice(&room.owners);
    priorities.copy_from_slice(&room.priorities);
    starts.copy_from_slice(&room.starts);
    targets.copy_from_slice(&room.targets);
}

// What is said of a file that is read.
fn header(file: &[u8]) -> Header
    requires { 512 ≤ length file.now }
    ensures { (result.vertices ≡ vertices_filed file.now) × (result.edges ≡ edges_filed file.now) }
{
    Header {
        vertices: bytes::vertices(file),
        edges: bytes::edges(file),
    }
}

// The lent tables are written only once every refusal is excluded: what is judged is read into a room of the reader's own.
pub fn read(
    file: &[u8],
    owners: &mut [u8],
    priorities: &mut [u8],
    starts: &mut [u16],
    targets: &mut [u16],
) -> Result<Header, Refusal>
    ensures { Reads file.now (tables_of owners.old priorities.old starts.old targets.old) (written owners priorities starts targets) (read_said result) }
{
    let mut room = Room::blank();
    judge(file, &mut room)?;
    refuse(
        lengths(owners.len(), priorities.len(), starts.len(), targets.len()),
        Kind::Buffer,
    )?;
    store(&room, owners, priorities, starts, targets);
    Ok(header(file))
}
