// A port space: a bank as far as port numbers go.
ghost use Rattle.std.specs.Prelude.{◌≡◌};
ghost use Rattle.ports.specs.Banks.{numbered};

use crate::Ports;
use crate::fault::PortFault;
use quantity::{Number, Port};

// What the bank below means above the last port number is left out, so that two banks that are
// alike at every port have one meaning.
#[derive(Drop)]
pub struct PortSpace<P> {
    below: P,
}

impl<P> PortSpace<P> {
    pub fn new(below: P) -> PortSpace<P>
        ensures { result.below ≡ below }
    {
        PortSpace { below }
    }
}

impl<P: Ports> Ports for PortSpace<P> {
    ghost words = { λ s. numbered (P.Ports.words s.below) };

    fn get(&self, port: Port) -> Result<Number, PortFault> {
        self.below.get(port)
    }

    fn set(&mut self, port: Port, word: Number) -> Result<(), PortFault> {
        self.below.set(port, word)
    }
}
