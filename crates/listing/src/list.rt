// The listing of a file: read, solved, and set down as text.
ghost use Rattle.game.specs.promise.Tables.{WellFormed};
ghost use Rattle.game.specs.promise.Lent.{asked, lent};
ghost use Rattle.storage.specs.promise.Lent.{buffers, left};
ghost use Rattle.decoding.specs.parts.Rooms.{whole};
ghost use Rattle.listing.specs.promise.Listing.{SetDown};
ghost use Rattle.listing.specs.parts.Answering.{Solvable, Solution, AnswerListed, Tellable, Told};

use decoding::room::Room;
use game::VERTICES;
use game::tables::Tables;
use housefile::Header;
use housefile::reader::read;
use lines::{game_lines, refused_line};
use refusal::Refusal;
use solver::solve;
use storage::answer::{Answer, cells};
use storage::{WINNERS, Winner};

// How many bytes the longest listing may have: 16 for the first line and 18 for each of the most vertices.
pub const TEXT: usize = 36880;

// Solves a well-formed game, with all that is lent of the right length: the solver does not refuse it.
fn answer(tables: Tables, winners: &mut [Winner], moves: &mut [u16], work: &mut [u16])
    requires { Solvable (asked tables) (buffers winners moves work) }
    ensures { Solution (lent tables) (left winners moves work).answer }
{
    solve(tables, winners, moves, work).unwrap();
}

// The lines of a game, with its answer.
fn listed(tables: Tables, text: &mut [u8; TEXT]) -> usize
    requires { WellFormed (asked tables) }
    ensures { AnswerListed (lent tables) text.old text.new result }
{
    let mut winners = [0 as Winner; WINNERS];
    let mut moves = [0u16; VERTICES];
    let mut work = [0u16; 8192];
    let n = tables.owners.len();
    let marks = cells(n);
    let room = 4 * n;
    answer(
        tables,
        &mut winners[..marks],
        &mut moves[..n],
        &mut work[..room],
    );
    game_lines(
        n,
        tables.targets.len(),
        tables.owners,
        tables.priorities,
        Answer {
            winners: &winners,
            moves: &moves,
        },
        text,
    )
}

// What the reader says, as text: the lines of the game that the room holds, or the line of a refusal.
fn told(taken: Result<Header, Refusal>, room: &Room, text: &mut [u8; TEXT]) -> usize
    requires { Tellable taken (whole room.now) }
    ensures { Told taken (whole room.now) text.old text.new result }
{
    match taken {
        Ok(h) => listed(room.cut(h.vertices, h.edges), text),
        Err(r) => refused_line(text, r),
    }
}

// Sets the listing of the file down in the text and returns how many bytes it has.
pub fn list(file: &[u8], text: &mut [u8; TEXT]) -> usize
    ensures { SetDown file.now text.old text.new result }
{
    let mut room = Room::blank();
    let taken = read(
        file,
        &mut room.owners,
        &mut room.priorities,
        &mut room.starts,
        &mut room.targets,
    );
    told(taken, &room, text)
}
