// The processor of the CISCA machine: what it holds, what a step changes, and why a step is refused.
#![tactic(auto)]

pub mod effect;
pub mod fault;
pub mod interrupt;
pub mod state;
