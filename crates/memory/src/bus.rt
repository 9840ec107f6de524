// A bus: two memories joined at an address.
ghost use Rattle.std.specs.Prelude.{◌≡◌};
ghost use Rattle.memory.specs.Layers.{joined_at};

use crate::fault::StoreFault;
use crate::{Readable, Store};
use quantity::Address;

// Addresses below `at` belong to the first, the others to the second. The two may differ in type, so
// each call has an arm for either: two closures passed to one function would be no plainer.
#[derive(Drop)]
pub struct Bus<L, H> {
    at: Address,
    low: L,
    high: H,
}

impl<L, H> Bus<L, H> {
    pub fn new(at: Address, low: L, high: H) -> Bus<L, H>
        ensures splits { result.at ≡ at }
        ensures below { result.low ≡ low }
        ensures above { result.high ≡ high }
    {
        Bus { at, low, high }
    }
}

impl<L: Readable, H: Readable> Readable for Bus<L, H> {
    ghost cells = { λ s. joined_at s.at.0 (L.Readable.cells s.low) (H.Readable.cells s.high) };

    fn read(&self, at: Address) -> Result<u8, StoreFault> {
        if at < self.at {
            self.low.read(at)
        } else {
            self.high.read(at)
        }
    }
}

impl<L: Store, H: Store> Store for Bus<L, H> {
    fn writable(&self, at: Address) -> Result<(), StoreFault> {
        if at < self.at {
            self.low.writable(at)
        } else {
            self.high.writable(at)
        }
    }

    fn write(&mut self, at: Address, byte: u8) -> Result<(), StoreFault> {
        if at < self.at {
            self.low.write(at, byte)
        } else {
            self.high.write(at, byte)
        }
    }
}
