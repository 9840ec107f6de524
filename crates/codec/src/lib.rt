// Instructions as bytes: one reader for byte strings and for any readable memory, and the writer.
#![tactic(auto)]

mod decode;
pub mod fault;
pub mod reader;
pub mod source;
pub mod writer;
