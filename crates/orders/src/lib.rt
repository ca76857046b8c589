// What an order gives in which the open vertices may be settled, each order under a budget; and lowest first.
#![tactic(auto)]

pub mod lowest;

// Nothing is open, or the budget is spent.
#[derive(Clone, Copy, Debug, PartialEq, Eq)]
pub enum Ended {
    Done,
    Spent,
}
