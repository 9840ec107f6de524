// A bank whose ports are words of a store.
ghost use Rattle.std.specs.Prelude.{◌≡◌};
ghost use Rattle.ports.specs.Banks.{mapped, placing};

use crate::Ports;
use crate::fault::PortFault;
use memory::{Readable, Store};
use quantity::{Address, Number, Port};
use words::access::{read_word, word_writable, write_word};

// Port n, for n below `count` and below 256, is the word at `base` + 4n, wrapping at 2^32. It is
// present when all four bytes are free.
#[derive(Drop)]
pub struct Mapped<S> {
    count: u32,
    base: Address,
    store: S,
}

impl<S> Mapped<S> {
    pub fn new(count: u32, base: Address, store: S) -> Mapped<S>
        ensures counts { result.count ≡ count }
        ensures based { result.base ≡ base }
        ensures over { result.store ≡ store }
    {
        Mapped { count, base, store }
    }

    // Where the word of a port lies, or a refusal where the bank has no such port.
    fn address_of(&self, port: Port) -> Result<Address, PortFault>
        ensures { result ≡ placing self.now.count self.now.base port }
    {
        if port.0 < self.count && port.0 < 256 {
            Ok(self.base.later(4 * port.0))
        } else {
            Err(PortFault::Absent(port))
        }
    }
}

impl<S: Store> Ports for Mapped<S> {
    ghost words = { λ s. mapped s.count s.base (S.Readable.cells s.store) };

    fn get(&self, port: Port) -> Result<Number, PortFault> {
        let at = self.address_of(port)?;
        word_writable(&self.store, at)
            .and_then(|()| read_word(&self.store, at))
            .map_err(|_| PortFault::Absent(port))
    }

    fn set(&mut self, port: Port, word: Number) -> Result<(), PortFault> {
        let at = self.address_of(port)?;
        write_word(&mut self.store, at, word).map_err(|_| PortFault::Absent(port))
    }
}
