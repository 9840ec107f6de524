// The arithmetic and logic of the CISCA machine: each operation from words and status to words and
// status.
#![tactic(auto)]

pub mod division;
mod logic;
pub mod operation;
mod shifts;
pub mod status;
mod sums;
pub mod worked;
