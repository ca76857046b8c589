// The update's tests before the checker's: both games' tables, their sizes, the lengths of the five lent lists.
#![tactic(auto)]

ghost use Rattle.std.specs.Prelude.{◌≡◌, OnOk};
ghost use Rattle.refusal.specs.promise.Row.{Gives};
ghost use Rattle.refusal.specs.parts.Found.{Finds};
ghost use Rattle.refusal.specs.promise.Number.{tested_said};
ghost use Rattle.refusal.specs.declared.TableFault.{TableFault};
ghost use Rattle.game.specs.promise.Tables.{WellFormed};
ghost use Rattle.game.specs.promise.Faults.{table_rows};
ghost use Rattle.game.specs.promise.Lent.{lent};
ghost use Rattle.storage.specs.promise.Lent.{claimed};
ghost use Rattle.inputs.specs.promise.Inputs.{Fault9, handed, second_rows, test_rows};

use game::buffers::compare;
use game::tables::Tables;
use refusal::{Kind, Refusal, refuse};
use storage::answer::{Answer, cells};
use storage::lent::lengths;
use tables::test_tables;

// What is handed to an update: the first game, the amended one, and an answer to the first.
#[derive(Clone, Copy)]
pub struct Input<'a> {
    pub first: Tables<'a>,
    pub second: Tables<'a>,
    pub old: Answer<'a>,
}

// A refusal of a game's tables as one of the second game's.
fn in_second(refusal: Refusal) -> Refusal
    ensures kind { (f : TableFault) → refusal.kind ≡ Kind.Game f → result.kind ≡ Kind.Second f }
    ensures place { result.place ≡ refusal.place }
{
    match refusal.kind {
        Kind::Game(fault) => Refusal {
            kind: Kind::Second(fault),
            place: refusal.place,
        },
        _ => refusal,
    }
}

// 21 to 27: the second game's tables.
fn test_second(tables: Tables) -> Result<(), Refusal>
    ensures gives { Gives (second_rows (table_rows (lent tables))) (tested_said result) }
    ensures formed { OnOk result (WellFormed (lent tables)) }
{
    test_tables(tables).map_err(in_second)
}

// 9: the games differ in their numbers of vertices.
fn same_size(n: usize, m: usize) -> Option<usize>
    ensures { Finds (Fault9 n m) result }
{
    (n != m).then_some(0)
}

// The first of 1 to 7, 21 to 27, 9 and 8 that applies, or that none does.
pub fn test_input(input: Input, new: Answer, work: &[u16]) -> Result<(), Refusal>
    ensures gives { Gives (test_rows (handed input) (record { answer = claimed new; work = work.now })) (tested_said result) }
    ensures formed { OnOk result (WellFormed (handed input).first × WellFormed (handed input).second) }
{
    test_tables(input.first)?;
    test_second(input.second)?;
    let n = input.first.vertices();
    refuse(same_size(n, input.second.vertices()), Kind::Vertices)?;
    let lent = lengths(n, new.winners.len(), new.moves.len(), work.len());
    let moved = compare(lent, input.old.moves.len(), n);
    refuse(
        compare(moved, input.old.winners.len(), cells(n)),
        Kind::Buffer,
    )
}
