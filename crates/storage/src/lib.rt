// Winners and moves as they are stored: the one room that knows it. Rows 8 and 11. Marks and moves are numbers because C lends their lists. An answer that is
// only read is one value; where they are written, winners, moves and work space are handed on one by one: behind a `&mut`, a struct of three `&mut` needs a
// clause more in every contract (docs/DECISIONS.md, Forms).
#![tactic(auto)]

pub mod answer;
pub mod lent;
pub mod marks;
pub mod vertex;

// A cell of a list of winners, and how many of them the most vertices take.
pub type Winner = u8;

pub const WINNERS: usize = 2048;
