// The vocabulary of the rack book: folders, entries, rows, calls, refusals, and the interfaces of a date line and of a rack.

#![tactic(auto)]

pub mod call;
pub mod date_line;
pub mod entry;
pub mod folder;
pub mod rack;
pub mod refusal;
pub mod row;
pub mod short_journals;
