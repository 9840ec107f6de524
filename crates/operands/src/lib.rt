// Operands of the CISCA machine: registers, modes, and which modes go together.
#![tactic(auto)]

pub mod group;
pub mod mode;
pub mod operand;
pub mod register;
