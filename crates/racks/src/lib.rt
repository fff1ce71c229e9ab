// Makes of rack.

#![tactic(auto)]

pub mod flat;
mod front;
