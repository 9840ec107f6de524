// An address space: a memory as far as addresses go.
ghost use Rattle.std.specs.Prelude.{◌≡◌};
ghost use Rattle.memory.specs.Layers.{addressed};

use crate::fault::StoreFault;
use crate::{Readable, Store};
use quantity::Address;

// What the memory below means above the last address is left out, so that two memories that are
// alike at every address have one meaning. `PortSpace` of `ports` is the same for banks, under a
// trait and a quantity of its own: one struct for both would have a name that says neither.
#[derive(Drop)]
pub struct AddressSpace<S> {
    below: S,
}

impl<S> AddressSpace<S> {
    pub fn new(below: S) -> AddressSpace<S>
        ensures { result.below ≡ below }
    {
        AddressSpace { below }
    }
}

impl<S: Readable> Readable for AddressSpace<S> {
    ghost cells = { λ s. addressed (S.Readable.cells s.below) };

    fn read(&self, at: Address) -> Result<u8, StoreFault> {
        self.below.read(at)
    }
}

impl<S: Store> Store for AddressSpace<S> {
    fn writable(&self, at: Address) -> Result<(), StoreFault> {
        self.below.writable(at)
    }

    fn write(&mut self, at: Address, byte: u8) -> Result<(), StoreFault> {
        self.below.write(at, byte)
    }
}
