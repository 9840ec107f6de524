// A seal: the bytes of one range fixed.
ghost use Rattle.std.specs.Prelude.{◌≡◌};
ghost use Rattle.memory.specs.Layers.{EmptySeal, SealsJoin, covered, sealed};

use crate::address_range::AddressRange;
use crate::fault::StoreFault;
use crate::{Readable, Store};
use quantity::Address;

// The bytes of the range are fixed.
#[derive(Drop)]
pub struct Seal<S> {
    range: AddressRange,
    // Open to writing as it is, so that a program can be laid where the seal then moves to.
    pub below: S,
}

impl<S: Readable> Seal<S> {
    // A seal of no bytes changes nothing, and a seal over a seal fixes the bytes of both ranges.
    pub fn new(range: AddressRange, below: S) -> Seal<S>
        ensures ranged { result.range ≡ range }
        ensures over { result.below ≡ below }
        ensures empty { EmptySeal (S.Readable.cells below) }
        ensures join { SealsJoin (S.Readable.cells below) }
    {
        Seal { range, below }
    }

    // Moves the seal to another range.
    pub fn cover(&mut self, range: AddressRange)
        ensures ranged { self.new.range ≡ range }
        ensures over { self.new.below ≡ self.old.below }
    {
        self.range = range;
    }

    // Whether an address lies in the range.
    pub fn covers(&self, at: Address) -> bool
        ensures { result ≡ covered self.now.range.base.0 self.now.range.length at.0 }
    {
        self.range.contains(at)
    }
}

impl<S: Readable> Readable for Seal<S> {
    ghost cells = { λ s. sealed s.range.base.0 s.range.length (S.Readable.cells s.below) };

    fn read(&self, at: Address) -> Result<u8, StoreFault> {
        self.below.read(at)
    }
}

impl<S: Store> Store for Seal<S> {
    fn writable(&self, at: Address) -> Result<(), StoreFault> {
        if self.covers(at) {
            self.below.read(at)?;
            Err(StoreFault::Fixed(at))
        } else {
            self.below.writable(at)
        }
    }

    fn write(&mut self, at: Address, byte: u8) -> Result<(), StoreFault> {
        if self.covers(at) {
            self.writable(at)
        } else {
            self.below.write(at, byte)
        }
    }
}
