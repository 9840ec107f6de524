// Layers piled up: a seal over a window over a bus of two chips.
#![tactic(auto)]

ghost use Rattle.std.specs.Prelude.{◌≡◌};
ghost use Rattle.memory.specs.Access.{verified};
ghost use Rattle.memory.specs.Cells.{chip, free};
ghost use Rattle.memory.specs.Layers.{joined_at, sealed, shifted};

use memory::address_range::AddressRange;
use memory::bus::Bus;
use memory::chip::Chip;
use memory::fault::StoreFault;
use memory::seal::Seal;
use memory::verify::write_verified;
use memory::window::Window;
use quantity::Address;

// Writes a byte to a pile of four layers and reads it back. That it is the byte that was written,
// where the pile has a free byte, follows from the one contract that every store meets.
pub fn write_through(
    split: Address,
    low: Vec<u8>,
    high: Vec<u8>,
    offset: u32,
    range: AddressRange,
    at: Address,
    byte: u8,
) -> Result<u8, StoreFault>
    ensures { result ≡ verified (sealed range.base.0 range.length (shifted offset (joined_at split.0 (chip free 0 low.items) (chip free split.0 high.items))) at.0) byte at }
{
    let bus = Bus::new(split, Chip::new(Address(0), low), Chip::new(split, high));
    let mut pile = Seal::new(range, Window::new(offset, bus));
    write_verified(&mut pile, at, byte)
}

#[cfg(test)]
mod tests;
