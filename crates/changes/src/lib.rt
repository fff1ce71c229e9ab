// Walks that change a tree of nodes in a lent slice: each names the tree that it leaves.

#![tactic(auto)]

pub mod changed;
pub mod descend;
pub mod found;
pub mod graft;
pub mod grown;
pub mod insert;
pub mod path;
pub mod place;
pub mod remove;
pub mod removed;
pub mod replace;
pub mod slots;
pub mod stack;
mod stacking;

pub use path::{Path, Side, Step};
pub use stack::Stack;
