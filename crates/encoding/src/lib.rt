// One block of a file, put into the part of the output that is its own: six bytes that name it, its payload, zeros, its check.
#![tactic(auto)]

ghost use Rattle.std.specs.Prelude.{◌+◌, length};
ghost use Rattle.game.specs.promise.Tables.{vertices};
ghost use Rattle.game.specs.promise.Lent.{asked, lent};
ghost use Rattle.format.specs.promise.Format.{plain, used_of, body_byte, block_byte};
ghost use Rattle.format.specs.parts.Put.{Put, Begun};
ghost use Rattle.encoding.specs.parts.Encoding.{Encodes};

use format::extent::{BlockKind, kind_of, used_of, vertex_blocks};
use game::tables::Tables;
use pieces::frame::{clear, name, seal};
use pieces::payload::{header, run_targets, run_vertices};

// The payload of block b. Vertices and targets are counted from the first block of their kind.
fn payload(tables: Tables, b: usize, part: &mut [u8])
    requires { Encodes (asked tables) b part.old }
    ensures { Put 6 (6 + used_of (vertices (lent tables)) (length (lent tables).targets) b) (body_byte (plain (lent tables)) b) part.old part.new }
{
    let n = tables.vertices();
    match kind_of(n, b) {
        BlockKind::Header => header(tables, part),
        BlockKind::Vertices => run_vertices(tables, 126 * (b - 1), part),
        BlockKind::Targets => {
            let first = 252 * (b - 1 - vertex_blocks(n));
            run_targets(tables.targets, first, part);
        }
    }
}

// Every byte but the check's is put once; then the check reads them once.
pub fn block(tables: Tables, b: usize, part: &mut [u8])
    requires { Encodes (asked tables) b part.old }
    ensures { Begun 512 (block_byte (plain (lent tables)) b) 512 part.new }
{
    let n = tables.vertices();
    let used = used_of(n, tables.targets.len(), b);
    name(part, b, kind_of(n, b) as u8, used);
    payload(tables, b, part);
    clear(part, 6 + used);
    seal(part);
}
