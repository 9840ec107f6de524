// Calls on a machine as data, and what holds of every list of them.
#![tactic(auto)]

pub mod call;
pub mod perform;
