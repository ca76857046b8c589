// Every refusal carries its kind, an enum that gives its number, and its place. docs/RULES.md has the table.
#![tactic(auto)]

ghost use Rattle.std.specs.Prelude.{◌≡◌, ◌+◌};
ghost use Rattle.refusal.specs.promise.Number.{number_of, table_number, answer_number, file_number};
ghost use Rattle.refusal.specs.parts.Found.{Refuses};

// What is wrong with a game's tables: 1 to 7, and 21 to 27 of the second game.
#[derive(Clone, Copy, Debug, PartialEq, Eq)]
pub enum TableFault {
    // 1: no vertex, too many, or lengths that do not fit one another.
    Sizes = 1,
    // 2: an owner is neither Even nor Odd.
    Owner = 2,
    // 3: a priority is 255.
    Priority = 3,
    // 4: the starts do not cut the targets into stretches.
    Start = 4,
    // 5: a vertex has no successor.
    Stuck = 5,
    // 6: a target is no vertex.
    Target = 6,
    // 7: a stretch does not ascend.
    Order = 7,
}

// What is wrong with an answer: 11 to 14.
#[derive(Clone, Copy, Debug, PartialEq, Eq)]
pub enum AnswerFault {
    // 11: a mark is neither 0 nor 1.
    Mark = 11,
    // 12: a recorded move is wrong.
    Move = 12,
    // 13: a loser's vertex has a successor with the other mark.
    Escape = 13,
    // 14: a cycle by the recorded moves is lost.
    Cycle = 14,
}

// What is wrong with a file, or with the output lent for one: 41 to 46.
#[derive(Clone, Copy, Debug, PartialEq, Eq)]
pub enum FileFault {
    // 41: its length.
    Length = 41,
    // 42: a block's check.
    Check = 42,
    // 43: a block's number or kind.
    Kind = 43,
    // 44: another byte of a block.
    Bytes = 44,
    // 45: the sum of the successor counts.
    Edges = 45,
    // 46: the lent output is not as long as the file.
    Output = 46,
}

// What a refusal is given for, by family.
#[derive(Clone, Copy, Debug, PartialEq, Eq)]
pub enum Kind {
    // 1 to 7.
    Game(TableFault),
    // 8: a lent list is not of its fixed length.
    Buffer,
    // 9: the two games of an update differ in n.
    Vertices,
    // 11 to 14.
    Claim(AnswerFault),
    // 21 to 27.
    Second(TableFault),
    // 41 to 46.
    Filed(FileFault),
}

#[derive(Clone, Copy, Debug, PartialEq, Eq)]
pub struct Refusal {
    pub kind: Kind,
    pub place: usize,
}

// The refusal for what a test of one row finds: the lowest place at which the row applies, if any.
pub fn refuse(found: Option<usize>, kind: Kind) -> Result<(), Refusal>
    ensures { Refuses found kind result }
{
    match found {
        Some(place) => Err(Refusal { kind, place }),
        None => Ok(()),
    }
}

// The number of a kind.
impl From<Kind> for u64 {
    ghost from_gives = { λ kind number. number ≡ number_of kind };

    fn from(kind: Kind) -> u64 {
        match kind {
            Kind::Game(fault) => fault as u64,
            Kind::Buffer => 8,
            Kind::Vertices => 9,
            Kind::Claim(fault) => fault as u64,
            Kind::Second(fault) => 20 + fault as u64,
            Kind::Filed(fault) => fault as u64,
        }
    }
}
