// The interface of a lawful order, the two kinds of priority, and their written forms.

#![tactic(auto)]

mod bytes;
pub mod card;
pub mod priority;
pub mod weight;
pub mod written;
