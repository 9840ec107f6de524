// Whole programs: any list of records, whose bytes stand one behind the other.
#![tactic(auto)]

pub mod compare;
pub mod fault;
pub mod read;
pub mod write;
