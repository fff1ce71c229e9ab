// Rows as elements of a tree: the summary that each part carries, and a date line's questions answered by descents.

#![tactic(auto)]

mod low_sum;
mod merged;
mod not_before;
pub mod row_item;
pub mod row_sum;
pub mod searches;
pub mod tally;
