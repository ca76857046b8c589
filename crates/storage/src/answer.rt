// An answer, and a vertex's mark and move in it, read and written.
ghost use Rattle.std.specs.Prelude.{◌≡◌, ◌<◌, length};
ghost use Rattle.storage.specs.promise.Answer.{winner_cells, mark_room, mark_of, move_of};
ghost use Rattle.storage.specs.parts.Answers.{MarkSet, MoveSet};

use crate::Winner;

// An answer that is only read: who wins each vertex, and his move.
#[derive(Clone, Copy)]
pub struct Answer<'a> {
    pub winners: &'a [Winner],
    pub moves: &'a [u16],
}

// How many cells the winners of n vertices take.
pub fn cells(n: usize) -> usize
    ensures { result ≡ winner_cells n }
{
    n
}

// A pair of leaves for marks and one for moves, and no generic one: how winners are stored is to change, and moves stay as they are.
pub fn mark(winners: &[Winner], v: usize) -> u8
    requires { v < mark_room winners.now }
    ensures { result ≡ mark_of winners.now v }
{
    winners[v]
}

pub fn set_mark(winners: &mut [Winner], v: usize, p: u8)
    requires { v < mark_room winners.old }
    ensures { MarkSet winners.old winners.new v p }
{
    winners[v] = p;
}

pub fn recorded(moves: &[u16], v: usize) -> u16
    requires { v < length moves.now }
    ensures { result ≡ move_of moves.now v }
{
    moves[v]
}

pub fn record_move(moves: &mut [u16], v: usize, m: u16)
    requires { v < length moves.old }
    ensures { MoveSet moves.old moves.new v m }
{
    moves[v] = m;
}
