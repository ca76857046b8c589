// A file is judged, row by row, and its tables are loaded.
#![tactic(auto)]

pub mod judge;
mod load;
