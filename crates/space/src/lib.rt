// Where things stand while a game is worked on: the sections of the lent work space, and the engine's own desk. A cell's place in either is known here alone.
#![tactic(auto)]

pub mod desk;
pub mod work;
