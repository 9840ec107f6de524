// Memory by layers: what a readable memory and a store mean, and the layers that they are built of.
#![tactic(auto)]

ghost use Rattle.std.specs.Prelude.{◌≡◌, ℕ};
ghost use Rattle.memory.specs.Access.{reading, writing};
ghost use Rattle.memory.specs.Cells.{Cell, written};

use fault::StoreFault;
use quantity::Address;

pub mod address_range;
pub mod address_space;
pub mod bus;
pub mod chip;
pub mod fault;
pub mod read_only_chip;
pub mod seal;
pub mod verify;
pub mod window;

// A memory that can be read: it shows a byte, or nothing, at each address.
pub trait Readable {
    // What each address holds. A memory that only shows bytes has them all fixed.
    ghost cells: { Self → ℕ → Cell };

    // The byte at an address, or a refusal where there is none.
    fn read(&self, at: Address) -> Result<u8, StoreFault>
        ensures { result ≡ reading (cells self.now at.0) at };
}

// A memory that can be written where its bytes are free.
pub trait Store: Readable {
    // What a writing at the address would answer; nothing changes.
    fn writable(&self, at: Address) -> Result<(), StoreFault>
        ensures { result ≡ writing (Self.Readable.cells self.now at.0) at };

    // Replaces a free byte; refuses where there is none, and where it is fixed. No other address
    // changes, and no byte becomes free or fixed.
    fn write(&mut self, at: Address, byte: u8) -> Result<(), StoreFault>
        ensures answers { result ≡ writing (Self.Readable.cells self.old at.0) at }
        ensures after { Self.Readable.cells self.new ≡ written (Self.Readable.cells self.old) at.0 byte };
}
