// Keeping a tree within the allowance of its greatest count: insertion and removal.

#![tactic(auto)]

pub mod insert;
pub mod remove;
pub mod shrunk;
