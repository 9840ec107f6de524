// Loading a program into a store: its bytes from an address on, and the record at each offset.
#![tactic(auto)]

pub mod laying;
pub mod layout;
