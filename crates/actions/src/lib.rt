// What an instruction is to do, taken apart into types that leave no illegal case.
#![tactic(auto)]

pub mod action;
pub mod taking;
