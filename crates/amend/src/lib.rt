// What an amendment reaches: the vertices in which two games differ, and all that lead to one of them.
#![tactic(auto)]

pub mod compare;
pub mod marking;
