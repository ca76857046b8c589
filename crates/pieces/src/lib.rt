// The pieces of a block, each put at its place into the 512 bytes that are lent for it. They are a slice, not an array: the law by
// which the writer puts a part back (`writer/proofs/Blocks.part_back`) speaks of one.
#![tactic(auto)]

pub mod frame;
pub mod payload;
