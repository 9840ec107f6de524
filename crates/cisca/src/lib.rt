// The instructions of the CISCA machine: the operations, and records that are legal.
#![tactic(auto)]

pub mod instruction;
pub mod operation;
