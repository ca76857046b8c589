// The engine's two starts: with nothing kept, and with lines of an old answer.
#![tactic(auto)]

pub mod fresh;
pub mod kept;
