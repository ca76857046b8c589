// The house game file: what its bytes mean (specs/), what block 0 says of the whole file, and what reader and writer both compute of a block.
#![tactic(auto)]

pub mod bytes;
pub mod extent;
pub mod weight;
