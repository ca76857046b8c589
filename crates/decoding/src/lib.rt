// What a file says, decoded: the sum of its counts, its tables, and priorities turned by its rule.
#![tactic(auto)]

pub mod counts;
pub mod fields;
mod places;
pub mod room;
pub mod turn;
