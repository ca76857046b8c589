// Row 14: whether a play by the recorded moves may run round a cycle that its winner loses.
#![tactic(auto)]

mod back;
mod levels;
pub mod lost;
