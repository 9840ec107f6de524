// A processor and the store that it sees, while what one instruction does is found.
use processor::state::Processor;

// The store is only read, and the processor is as the instruction has made it so far.
#[derive_where(Clone, Copy)]
pub(crate) struct Planner<'a, S> {
    pub store: &'a S,
    pub processor: Processor,
}
