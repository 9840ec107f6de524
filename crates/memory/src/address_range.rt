// A range of addresses.
ghost use Rattle.std.specs.Prelude.{◌≡◌};
ghost use Rattle.memory.specs.Layers.{covered};

use quantity::Address;

// The `length` addresses from `base` on. A range does not wrap, and may be empty.
#[derive(Clone, Copy, PartialEq, Eq, Debug)]
pub struct AddressRange {
    pub base: Address,
    pub length: u64,
}

impl AddressRange {
    // Whether an address lies in the range.
    pub fn contains(self, at: Address) -> bool
        ensures { result ≡ covered self.base.0 self.length at.0 }
    {
        at.0 >= self.base.0 && u64::from(at.0 - self.base.0) < self.length
    }
}
