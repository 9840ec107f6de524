// Why a store turns a call away.
ghost use Rattle.std.specs.Prelude.{◌≡◌};
ghost use Rattle.memory.specs.Faults.{address_of, number_of, readdressed};

use quantity::Address;

// A refusal of a store, with the address that the caller asked for.
#[derive(Clone, Copy, PartialEq, Eq, Debug)]
pub enum StoreFault {
    // No byte is there.
    Absent(Address),
    // The byte is fixed: it is read, and not written.
    Fixed(Address),
}

impl StoreFault {
    // The refusal's number: 10 for no byte, 11 for a fixed one.
    pub fn number(self) -> u8
        ensures { result ≡ number_of self }
    {
        match self {
            StoreFault::Absent(_) => 10,
            StoreFault::Fixed(_) => 11,
        }
    }

    // The address that was refused.
    pub fn address(self) -> Address
        ensures { result ≡ address_of self }
    {
        match self {
            StoreFault::Absent(at) | StoreFault::Fixed(at) => at,
        }
    }

    // The same refusal at another address: that at which a layer was asked for the byte.
    pub fn readdressed(self, at: Address) -> StoreFault
        ensures { result ≡ readdressed self at }
    {
        match self {
            StoreFault::Absent(_) => StoreFault::Absent(at),
            StoreFault::Fixed(_) => StoreFault::Fixed(at),
        }
    }
}
