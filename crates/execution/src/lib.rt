// What one instruction does, found by reading alone: an effect, or the fault that comes first.
#![tactic(auto)]

mod addressing;
mod commands;
mod interrupts;
mod jumps;
mod parts;
mod pending;
pub mod plan;
mod planner;
mod stack;
mod transfer;
