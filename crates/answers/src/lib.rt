// An answer vertex by vertex: whether its moves stay among the winner's vertices, and whether its losers are shut in. Rows 12 and 13.
#![tactic(auto)]

pub mod escapes;
pub mod moves;
