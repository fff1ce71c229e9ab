// The scapegoat tree: a list by place over lent nodes.

#![tactic(auto)]

pub mod insert_at;
pub mod lent;
pub mod links;
pub mod making;
pub mod reads;
pub mod refusal;
pub mod remove_at;
pub mod replace_at;
pub mod tree;

pub use tree::Tree;
