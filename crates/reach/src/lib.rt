// The closure backwards over a game's edges.
#![tactic(auto)]

pub mod closure;
