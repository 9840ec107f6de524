// A read-only chip: bytes that a chip borrows, all fixed.
ghost use Rattle.memory.specs.Cells.{chip, fixed};

use crate::chip::Chip;
use crate::fault::StoreFault;
use crate::{Readable, Store};
use quantity::Address;

pub type ReadOnlyChip<'a> = Chip<&'a [u8]>;

impl<'a> Readable for ReadOnlyChip<'a> {
    ghost cells = { λ s. chip fixed s.base.0 s.bytes.now };

    fn read(&self, at: Address) -> Result<u8, StoreFault> {
        self.byte_at(at)
    }
}

impl<'a> Store for ReadOnlyChip<'a> {
    fn writable(&self, at: Address) -> Result<(), StoreFault> {
        self.read(at)?;
        Err(StoreFault::Fixed(at))
    }

    fn write(&mut self, at: Address, _byte: u8) -> Result<(), StoreFault> {
        self.writable(at)
    }
}
