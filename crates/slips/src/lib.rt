// A list of slips by rising stamp, its replay into any rack, and the plan of an unattended run.

#![tactic(auto)]

pub mod fault;
pub mod list;
pub mod replay;
pub mod run;
