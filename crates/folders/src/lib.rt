// Folders in a tree, foremost first: the summary that a part keeps, and the search for a folder's place.

#![tactic(auto)]

pub mod element;
pub mod key;
pub mod place;

pub use element::Racked;
pub use key::Key;
pub use place::place_of;
