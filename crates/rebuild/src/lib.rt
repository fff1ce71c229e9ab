// Rebuilding a part of a tree in the balanced shape.

#![tactic(auto)]

pub mod build;
pub mod order;
pub mod task;
pub mod whole;

pub use whole::rebuild;
