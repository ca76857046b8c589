// Lists the game file on standard input: its game with winners and moves, or its refusal.
#![tactic(auto)]

mod list;

use crate::list::{TEXT, list};

const STANDARD_INPUT: i32 = 0;

const STANDARD_OUTPUT: i32 = 1;

// Prints the listing of a file, in one write.
fn show(file: &[u8]) {
    let mut text = [0u8; TEXT];
    let k = list(file, &mut text);
    io::write_all(STANDARD_OUTPUT, &text[..k]);
}

// At most 85 blocks are read, one more than the largest file has.
fn main() {
    let mut file = [0u8; 43520];
    let n = io::read_full(STANDARD_INPUT, &mut file);
    show(&file[..n]);
}
