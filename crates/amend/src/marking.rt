// What an amendment reaches: every vertex with a path to a differing one, found by the closure backwards from those.
ghost use Rattle.game.specs.promise.Tables.{game_of, vertices};
ghost use Rattle.game.specs.promise.Lent.{asked, lent};
ghost use Rattle.amend.specs.promise.Amended.{Differs};
ghost use Rattle.amend.specs.parts.Marking.{DifferingSeedable, Seeding, Copyable, Copied, Findable, FoundReached};

use crate::compare::differs;
use game::tables::Tables;
use preds::Incoming;
use reach::closure::{close, seed};
use space::work::reached;

// Seeds every differing vertex and returns their number. `restart::seed_open` is the same loop with another test: one that is lent the test
// would have to say in its contract what the two tests say of the work space, for two lines saved.
fn seed_differing(first: Tables, second: Tables, work: &mut [u16]) -> usize
    requires { DifferingSeedable (asked first) (asked second) work.old }
    ensures { Seeding (Differs (game_of (lent first)) (game_of (lent second))) (vertices (lent second)) work.old work.new result (vertices (lent second)) }
{
    let n = second.owners.len();
    let mut tail: usize = 0;
    for v in 0..n {
        if differs(v, first, second) {
            tail = seed(n, v, work, tail);
        }
    }
    tail
}

// What the closure has reached of n vertices, as bytes, as `start::kept` says. n is the work space's; what is behind it in the bytes stays.
fn copy_reached(n: usize, work: &[u16], bytes: &mut [u8])
    requires { Copyable n bytes.old work.now }
    ensures { Copied n work.now bytes.new n }
{
    for v in 0..n {
        bytes[v] = reached(n, v, work) as u8;
    }
}

// Sets 1 for every vertex that reaches a differing one, 0 for all others, and returns the number of the former. The closure gets an empty list as
// choice, so that it follows every edge.
pub fn find_reached(
    first: Tables,
    second: Tables,
    preds: Incoming,
    reached: &mut [u8],
    work: &mut [u16],
) -> usize
    requires { Findable (asked first) (asked second) preds.ins.now preds.froms.now reached.old work.old }
    ensures { FoundReached (lent first) (lent second) work.old reached.new work.new result }
{
    let n = second.owners.len();
    let seeds = seed_differing(first, second, work);
    let count = close(n, preds, 0, &[], work, seeds);
    copy_reached(n, work, reached);
    work.fill(0);
    count
}
