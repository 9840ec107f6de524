// Effects made true and taken back: what is changed, with what stood there before.
#![tactic(auto)]

pub mod commit;
pub mod entry;
pub mod journaled;
pub mod undo;
