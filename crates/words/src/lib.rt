// The word at an address: four bytes, lowest first, read or written whole.
#![tactic(auto)]

pub mod access;
pub mod fault;
