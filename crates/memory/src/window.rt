// A window: a memory shown at other addresses.
ghost use Rattle.std.specs.Prelude.{◌≡◌};
ghost use Rattle.memory.specs.Layers.{StillWindow, shifted};

use crate::fault::StoreFault;
use crate::{Readable, Store};
use quantity::Address;

// The address a of the memory below is shown as a minus `offset`, wrapping at 2^32.
#[derive(Drop)]
pub struct Window<S> {
    offset: u32,
    below: S,
}

impl<S: Readable> Window<S> {
    // A window by 0 shows each address as itself.
    pub fn new(offset: u32, below: S) -> Window<S>
        ensures shifts { result.offset ≡ offset }
        ensures over { result.below ≡ below }
        ensures still { StillWindow (S.Readable.cells below) }
    {
        Window { offset, below }
    }
}

impl<S: Readable> Readable for Window<S> {
    ghost cells = { λ s. shifted s.offset (S.Readable.cells s.below) };

    fn read(&self, at: Address) -> Result<u8, StoreFault> {
        self.below
            .read(at.later(self.offset))
            .map_err(|fault| fault.readdressed(at))
    }
}

impl<S: Store> Store for Window<S> {
    fn writable(&self, at: Address) -> Result<(), StoreFault> {
        self.below
            .writable(at.later(self.offset))
            .map_err(|fault| fault.readdressed(at))
    }

    fn write(&mut self, at: Address, byte: u8) -> Result<(), StoreFault> {
        self.below
            .write(at.later(self.offset), byte)
            .map_err(|fault| fault.readdressed(at))
    }
}
