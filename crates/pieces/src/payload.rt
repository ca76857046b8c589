// What a block's payload is made of: the header's fields, or a run of vertices or of targets.
ghost use Rattle.std.specs.Prelude.{◌≡◌, ◌+◌, ◌-◌, ◌*◌, ◌<◌, min, length};
ghost use Rattle.game.specs.promise.Tables.{vertices};
ghost use Rattle.game.specs.promise.Lent.{asked, lent};
ghost use Rattle.format.specs.promise.Format.{plain};
ghost use Rattle.format.specs.parts.Put.{Put};
ghost use Rattle.pieces.specs.parts.Pieces.{Words, Run, head_at, vertex_at, target_at};

use format::bytes::set_word;
use game::tables::Tables;

// n, the number of edges, and rule 0.
pub fn header(tables: Tables, part: &mut [u8])
    requires { Words (vertices (asked tables)) (length (asked tables).targets) part.old }
    ensures { Put 6 11 (head_at (plain (lent tables))) part.old part.new }
{
    set_word(part, 6, tables.vertices() as u16);
    set_word(part, 8, tables.targets.len() as u16);
    part[10] = 0;
}

// Two functions, not one over an item's width: an item's place would be the width times its index, and `omega` reads no product of two variables.

// 126 vertices from the first on, or what is left of them: owner, priority, number of successors.
pub fn run_vertices(tables: Tables, first: usize, part: &mut [u8])
    requires { Run (asked tables) first part.old }
    ensures { Put 6 (6 + 4 * min 126 (vertices (lent tables) - first)) (vertex_at (lent tables) first) part.old part.new }
{
    let left = tables.vertices().saturating_sub(first);
    for v in first..first + left.min(126) {
        let at = 6 + 4 * (v - first);
        part[at] = tables.owners[v];
        part[at + 1] = tables.priorities[v];
        set_word(part, at + 2, tables.starts[v + 1] - tables.starts[v]);
    }
}

// 252 targets from the first on, or what is left of them.
pub fn run_targets(targets: &[u16], first: usize, part: &mut [u8])
    requires { (length part.old ≡ 512) × (first < 65536) }
    ensures { Put 6 (6 + 2 * min 252 (length targets.now - first)) (target_at targets.now first) part.old part.new }
{
    let left = targets.len().saturating_sub(first);
    for e in first..first + left.min(252) {
        set_word(part, 6 + 2 * (e - first), targets[e]);
    }
}
