// Nodes of binary trees in a lent slice: their layout, and the walks that only read.

#![tactic(auto)]

pub mod element;
mod mark;
pub mod node;
pub mod part;
mod pending;
pub mod probe;
pub mod read;
pub mod search;
pub mod sums;

pub use element::Element;
pub use node::Node;
pub use part::{Fork, Part};
pub use probe::Probe;
