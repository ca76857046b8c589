// The lines of a listing, each appended to the text: by `text`, whose head says why not by `write!`. Owners, winners and moves are printed as they stand in
// their cells. n stands beside the lists, which may be longer, and m is a number of the first line; no `Tables`, since a listing asks nothing of starts and
// targets. The place stands beside the text (`text`'s head).
#![tactic(auto)]

ghost use Rattle.refusal.specs.promise.Number.{number_of};
ghost use Rattle.storage.specs.promise.Lent.{claimed};
ghost use Rattle.text.specs.parts.Append.{Room, Appended};
ghost use Rattle.lines.specs.promise.Lines.{move_field, game_line, refused_line, vertex_line, vertex_lines, game_lines};
ghost use Rattle.lines.specs.parts.Listable.{Listable};

use game::NONE;
use refusal::Refusal;
use storage::answer::{Answer, mark, recorded};
use text::{byte, field, number, pair};

// The first line of a game: vertices, edges.
fn game_line(text: &mut [u8], vertices: usize, edges: usize) -> usize
    requires { Room text.old 0 (game_line vertices edges) }
    ensures { Appended text.old text.new 0 (game_line vertices edges) result }
{
    pair(text, 0, b"game", vertices as u64, edges as u64)
}

// The line of a refusal: number, place.
pub fn refused_line(text: &mut [u8], r: Refusal) -> usize
    requires { Room text.old 0 (refused_line (number_of r.kind) r.place) }
    ensures { Appended text.old text.new 0 (refused_line (number_of r.kind) r.place) result }
{
    let number = u64::from(r.kind);
    let place = r.place as u64;
    pair(text, 0, b"refused", number, place)
}

// The move, or "-" where the loser owns the vertex.
fn move_field(text: &mut [u8], at: usize, to: u16) -> usize
    requires { Room text.old at (move_field to) }
    ensures { Appended text.old text.new at (move_field to) result }
{
    if to == NONE {
        return byte(text, at, b'-');
    }
    number(text, at, u64::from(to))
}

fn vertex_line(
    v: usize,
    owner: u8,
    priority: u8,
    winner: u8,
    to: u16,
    text: &mut [u8],
    at: usize,
) -> usize
    requires { Room text.old at (vertex_line v owner priority winner to) }
    ensures { Appended text.old text.new at (vertex_line v owner priority winner to) result }
{
    let a = field(text, at, v as u64, b' ');
    let b = field(text, a, u64::from(owner), b' ');
    let c = field(text, b, u64::from(priority), b' ');
    let d = field(text, c, u64::from(winner), b' ');
    let e = move_field(text, d, to);
    byte(text, e, b'\n')
}

// The lines of the vertices below n.
fn vertex_lines(
    n: usize,
    owners: &[u8],
    priorities: &[u8],
    answer: Answer,
    text: &mut [u8],
    at: usize,
) -> usize
    requires { Listable n owners.now priorities.now answer.winners.now answer.moves.now × Room text.old at (vertex_lines owners.now priorities.now answer.winners.now answer.moves.now n) }
    ensures { Appended text.old text.new at (vertex_lines owners.now priorities.now (claimed answer).winners (claimed answer).moves n) result }
{
    let mut next = at;
    for v in 0..n {
        let winner = mark(answer.winners, v);
        let to = recorded(answer.moves, v);
        next = vertex_line(v, owners[v], priorities[v], winner, to, text, next);
    }
    next
}

// The lines of a game of n vertices and m edges with its answer.
pub fn game_lines(
    n: usize,
    m: usize,
    owners: &[u8],
    priorities: &[u8],
    answer: Answer,
    text: &mut [u8],
) -> usize
    requires { Listable n owners.now priorities.now answer.winners.now answer.moves.now × Room text.old 0 (game_lines owners.now priorities.now answer.winners.now answer.moves.now n m) }
    ensures { Appended text.old text.new 0 (game_lines owners.now priorities.now (claimed answer).winners (claimed answer).moves n m) result }
{
    let at = game_line(text, n, m);
    vertex_lines(n, owners, priorities, answer, text, at)
}
