// The C interface: what a Rust or C program links. Each function hands on to the entry point and gives its number and value. Five functions of one
// shape, with four slices for a game and numbers for what is said, because that is what C links.
#![tactic(auto)]

ghost use Rattle.game.specs.promise.Tables.{tables_of};
ghost use Rattle.game.specs.promise.Lent.{written};
ghost use Rattle.storage.specs.promise.Answer.{answer_of};
ghost use Rattle.storage.specs.promise.Lent.{given, left};
ghost use Rattle.inputs.specs.promise.Inputs.{input_of};
ghost use Rattle.zoetelkorf.specs.promise.Calls.{ChecksBy, SolvesBy, UpdatesBy, ReadsBy, WritesBy};

use checker::check;
use game::tables::Tables;
use housefile::reader::read;
use inputs::Input;
use solver::solve;
use storage::Winner;
use storage::answer::Answer;
use told::{refused, sizes};
use update::update;
use writer::write;

#[unsafe(no_mangle)]
pub extern "C" fn zoetelkorf_check(
    owners: &[u8],
    priorities: &[u8],
    starts: &[u16],
    targets: &[u16],
    winners: &[Winner],
    moves: &[u16],
    work: &mut [u16],
    value: &mut u64,
) -> u64
    ensures { ChecksBy (tables_of owners.now priorities.now starts.now targets.now) (answer_of winners.now moves.now) work.old work.new result value.new }
{
    let tables = Tables {
        owners,
        priorities,
        starts,
        targets,
    };
    match check(tables, Answer { winners, moves }, work) {
        Ok(()) => {
            *value = 0;
            0
        }
        Err(r) => refused(r, value),
    }
}

#[unsafe(no_mangle)]
pub extern "C" fn zoetelkorf_solve(
    owners: &[u8],
    priorities: &[u8],
    starts: &[u16],
    targets: &[u16],
    winners: &mut [Winner],
    moves: &mut [u16],
    work: &mut [u16],
    value: &mut u64,
) -> u64
    ensures { SolvesBy (tables_of owners.now priorities.now starts.now targets.now) (given winners moves work) (left winners moves work) result value.new }
{
    let tables = Tables {
        owners,
        priorities,
        starts,
        targets,
    };
    match solve(tables, winners, moves, work) {
        Ok(()) => {
            *value = 0;
            0
        }
        Err(r) => refused(r, value),
    }
}

#[unsafe(no_mangle)]
pub extern "C" fn zoetelkorf_update(
    owners: &[u8],
    priorities: &[u8],
    starts: &[u16],
    targets: &[u16],
    owners2: &[u8],
    priorities2: &[u8],
    starts2: &[u16],
    targets2: &[u16],
    old_winners: &[Winner],
    old_moves: &[u16],
    winners: &mut [Winner],
    moves: &mut [u16],
    work: &mut [u16],
    value: &mut u64,
) -> u64
    ensures { UpdatesBy (input_of (tables_of owners.now priorities.now starts.now targets.now) (tables_of owners2.now priorities2.now starts2.now targets2.now) (answer_of old_winners.now old_moves.now)) (given winners moves work) (left winners moves work) result value.new }
{
    let input = Input {
        first: Tables {
            owners,
            priorities,
            starts,
            targets,
        },
        second: Tables {
            owners: owners2,
            priorities: priorities2,
            starts: starts2,
            targets: targets2,
        },
        old: Answer {
            winners: old_winners,
            moves: old_moves,
        },
    };
    match update(input, winners, moves, work) {
        Ok(count) => {
            *value = count as u64;
            0
        }
        Err(r) => refused(r, value),
    }
}

#[unsafe(no_mangle)]
pub extern "C" fn zoetelkorf_read(
    file: &[u8],
    owners: &mut [u8],
    priorities: &mut [u8],
    starts: &mut [u16],
    targets: &mut [u16],
    value: &mut u64,
) -> u64
    ensures { ReadsBy file.now (tables_of owners.old priorities.old starts.old targets.old) (written owners priorities starts targets) result value.new }
{
    match read(file, owners, priorities, starts, targets) {
        Ok(h) => {
            *value = sizes(h.vertices, h.edges);
            0
        }
        Err(r) => refused(r, value),
    }
}

#[unsafe(no_mangle)]
pub extern "C" fn zoetelkorf_write(
    owners: &[u8],
    priorities: &[u8],
    starts: &[u16],
    targets: &[u16],
    file: &mut [u8],
    value: &mut u64,
) -> u64
    ensures { WritesBy (tables_of owners.now priorities.now starts.now targets.now) file.old file.new result value.new }
{
    let tables = Tables {
        owners,
        priorities,
        starts,
        targets,
    };
    match write(tables, file) {
        Ok(bytes) => {
            *value = bytes as u64;
            0
        }
        Err(r) => refused(r, value),
    }
}
