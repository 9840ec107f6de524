// A processor, a memory and a bank with a journal of what was changed.
ghost use Rattle.std.specs.Prelude.{◌≤◌, vec_len, vec_capacity};

use crate::entry::Entry;
use memory::Store;
use ports::Ports;
use processor::state::Processor;

pub mod calls;

// The journal has an entry for each effect recorded and not taken back, and room for 256. Its memory
// is taken when it is made.
#[derive(Drop)]
pub struct Journaled<M, P> {
    pub memory: M,
    pub ports: P,
    pub processor: Processor,
    entries: Vec<Entry>,
    ghost room: { (vec_len entries ≤ 256) × (256 ≤ vec_capacity entries) },
}
