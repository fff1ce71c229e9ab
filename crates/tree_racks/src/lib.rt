// The scapegoat make of a rack: folders in a tree over lent nodes.

#![tactic(auto)]

mod by_rank;
pub mod scapegoat_rack;
