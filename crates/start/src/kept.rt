// The start that keeps lines of an old answer: what is not reached is settled with its old line, what is reached is open.
ghost use Rattle.std.specs.Prelude.{◌<◌, length, get_or};
ghost use Rattle.player.specs.promise.Player.{parity_of};
ghost use Rattle.storage.specs.promise.Answer.{mark_room, mark_of};
ghost use Rattle.storage.specs.promise.Lent.{claimed};
ghost use Rattle.start.specs.parts.Preparing.{Chosen, Preparable, Prepared};

use player::Player;
use space::work::set_flag;
use storage::Winner;
use storage::answer::{Answer, mark, record_move, recorded, set_mark};

// The mark that v starts with: its old one, or if v is reached that of its priority's parity. A number, to be put into its cell.
fn start_mark(v: usize, priorities: &[u8], old_winners: &[Winner], reached: &[u8]) -> u8
    requires { (v < length priorities.now) × (v < mark_room old_winners.now) × (v < length reached.now) }
    ensures { Chosen (get_or reached.now v 0) (mark_of old_winners.now v) (parity_of (get_or priorities.now v 0)) result }
{
    if reached[v] == 0 {
        return mark(old_winners, v);
    }
    u8::from(Player::of_priority(priorities[v]))
}

// The engine's start: unreached vertices settled with their old lines, reached ones open. The move of an open vertex is never read.
// What is reached is bytes and no `bool`s: this, and `anew::decide`, take any byte but 0 for reached.
pub fn prepare(
    n: usize,
    priorities: &[u8],
    old: Answer,
    reached: &[u8],
    winners: &mut [Winner],
    moves: &mut [u16],
    work: &mut [u16],
)
    requires { Preparable n priorities.now old.winners.now old.moves.now reached.now winners.old moves.old work.old }
    ensures { Prepared n priorities.now (claimed old).winners (claimed old).moves reached.now winners.new moves.new work.new n }
{
    for v in 0..n {
        set_mark(winners, v, start_mark(v, priorities, old.winners, reached));
        record_move(moves, v, recorded(old.moves, v));
        set_flag(n, v, u16::from(reached[v]), work);
    }
}
