// The reader of the house game file.
#![tactic(auto)]

pub mod reader;

// What a file that is read says: the numbers of vertices and edges.
#[derive(Clone, Copy, Debug, PartialEq, Eq)]
pub struct Header {
    pub vertices: usize,
    pub edges: usize,
}
