// The machine: a processor over any store and any bank of ports, with a program and a journal.
#![tactic(auto)]

pub mod fault;
pub mod machine;
pub mod saw_box;
