// Making a machine.
ghost use Rattle.std.specs.Prelude.{◌≡◌, IfOk};
ghost use Rattle.machine.specs.Machines.{fresh, state_of};

use crate::machine::Machine;
use journal::journaled::Journaled;
use loading::layout::Layout;
use memory::Store;
use memory::address_range::AddressRange;
use memory::address_space::AddressSpace;
use memory::seal::Seal;
use ports::Ports;
use ports::port_space::PortSpace;
use processor::state::Processor;
use quantity::Address;
use std::alloc::{AllocError, Global};

impl<S: Store, P: Ports> Machine<S, P> {
    // An empty machine over a store and a bank. This is the only call that can fail for want of
    // memory.
    pub fn new(heap: Global, store: S, ports: P) -> Result<Self, AllocError>
    where
        S: Drop,
        P: Drop,
        ensures { IfOk result (λ m. state_of S.Readable.cells P.Ports.words m ≡ fresh (S.Readable.cells store) (P.Ports.words ports)) }
    {
        let layout = Layout::new(heap)?;
        let base = Address(0);
        let memory = Seal::new(AddressRange { base, length: 0 }, AddressSpace::new(store));
        let system = Journaled::new(heap, Processor::new(base), memory, PortSpace::new(ports))?;
        Ok(Machine {
            system,
            base,
            layout,
        })
    }
}
