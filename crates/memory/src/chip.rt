// A chip: bytes from a base address on, all free where it owns them.
ghost use Rattle.std.specs.Prelude.{◌≡◌, length};
ghost use Rattle.memory.specs.Access.{finding, reading};
ghost use Rattle.memory.specs.Cells.{chip, fixed, free};

use crate::fault::StoreFault;
use crate::{Readable, Store};
use quantity::Address;
use std::convert::AsSlice;

// The bytes stand at `base`, `base` + 1 and so on; those that would stand above the last address
// are absent.
#[derive(Clone, Copy, Drop)]
pub struct Chip<B = Vec<u8>> {
    base: Address,
    bytes: B,
}

impl<B> Chip<B> {
    pub fn new(base: Address, bytes: B) -> Chip<B>
        ensures based { result.base ≡ base }
        ensures holds { result.bytes ≡ bytes }
    {
        Chip { base, bytes }
    }
}

impl Chip {
    // The bytes, given back.
    pub fn into_bytes(self) -> Vec<u8>
        ensures { result ≡ self.bytes }
    {
        let Chip { base: _, bytes } = self;
        bytes
    }
}

impl<B: AsSlice<u8>> Chip<B> {
    // Which of the bytes stands at an address, or a refusal where none does.
    fn index_of(&self, at: Address) -> Result<usize, StoreFault>
        ensures { result ≡ finding self.now.base.0 (length (B.items self.now.bytes)) at }
    {
        // Two tests and no chain of closures, over which a word that is written cost up to five times as much.
        if at.0 >= self.base.0 {
            let index = (at.0 - self.base.0) as usize;
            if index < self.bytes.as_slice().len() {
                return Ok(index);
            }
        }
        Err(StoreFault::Absent(at))
    }

    // The byte at an address. A reader sees it alike whether it is free or fixed.
    pub(crate) fn byte_at(&self, at: Address) -> Result<u8, StoreFault>
        ensures { result ≡ reading (chip fixed self.now.base.0 (B.items self.now.bytes) at.0) at }
    {
        let index = self.index_of(at)?;
        Ok(self.bytes.as_slice()[index])
    }
}

impl Readable for Chip {
    ghost cells = { λ s. chip free s.base.0 s.bytes.items };

    fn read(&self, at: Address) -> Result<u8, StoreFault> {
        self.byte_at(at)
    }
}

impl Store for Chip {
    fn writable(&self, at: Address) -> Result<(), StoreFault> {
        self.read(at)?;
        Ok(())
    }

    fn write(&mut self, at: Address, byte: u8) -> Result<(), StoreFault> {
        let index = self.index_of(at)?;
        self.bytes[index] = byte;
        Ok(())
    }
}
